//! The lines that begin a section: `global`, `defaults`, and one `listen`; any other is refused as a section.
ghost use Rattle.std.specs.Prelude.{◌≡◌, OnErr};
ghost use Rattle.cfg_parse.specs.Reading.{Leaves};
ghost use Rattle.cfg_parse.specs.Settings.{section_line};

use crate::arguments::Arguments;
use crate::draft::{Draft, Listen, Section};
use crate::fault::{CfgKind, LineRefusal};
use crate::finish::default_timeouts;
use crate::keywords::SectionWord;

/// A line that begins a section.
#[tactic(auto, unfolding(crate::specs::Settings::section_line))]
pub fn begin_section(
    draft: &mut Draft,
    word: SectionWord,
    arguments: Arguments<'_>,
) -> Result<(), LineRefusal>
    ensures leaves { Leaves result draft.new (section_line draft.old word arguments.entry) }
    ensures unchanged { OnErr result (draft.new ≡ draft.old) }
{
    match word {
        SectionWord::Global => {
            arguments.no_more()?;
            draft.section = Section::Global;
        }
        SectionWord::Defaults => {
            arguments.no_more()?;
            draft.section = Section::Defaults;
            if draft.listen == Listen::Missing {
                draft.timeouts = default_timeouts();
                drop(draft.forwarding.take());
            }
        }
        SectionWord::Listen => {
            if draft.listen == Listen::Begun {
                return Err(LineRefusal::Refused(CfgKind::Section));
            }
            let (_name, arguments) = arguments.argument()?;
            arguments.no_more()?;
            draft.section = Section::Listen;
            draft.listen = Listen::Begun;
        }
        SectionWord::Other => return Err(LineRefusal::Refused(CfgKind::Section)),
    }
    Ok(())
}
