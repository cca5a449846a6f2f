//! A line of a text, by its words.

ghost use Rattle.std.specs.Prelude.{◌≡◌, OnOk, OnErr};
ghost use Rattle.cfg_parse.specs.Asking.{ReadsLine};
ghost use Rattle.cfg_parse.specs.Draft.{is_before, belongs};
ghost use Rattle.cfg_parse.specs.Sound.{IsSound};
ghost use Rattle.cfg_parse.specs.Lines.{setting_line, known_line, words_line, line_of};

use crate::applications::{set_docroot, set_index, set_script};
use crate::arguments::Arguments;
use crate::draft::{Draft, Section};
use crate::fault::{CfgKind, LineRefusal};
use crate::filters::set_filter;
use crate::keywords::{FirstWord, Places, Setting, first_word_of};
use crate::pairs::read_param_line;
use crate::rule_lines::{read_acl_line, read_option_line, read_rule_line};
use crate::sections::begin_section;
use crate::settings::{read_mode, set_bind, set_bufsize, set_maxrewrite, set_server, set_timeout};
use cfg_lex::words_of_line;
use http_rules::Direction;
use px_pattern::Patterns;
use std::alloc::Global;

/// No section has begun.
fn is_before(section: Section) -> bool
    ensures { result ≡ is_before section }
{
    match section {
        Section::Before => true,
        Section::Global | Section::Defaults | Section::Listen => false,
    }
}

/// The section is one of these.
fn belongs(places: Places, section: Section) -> bool
    ensures { result ≡ belongs places section }
{
    match (places, section) {
        (Places::InGlobal, Section::Global) => true,
        (Places::InBoth, Section::Defaults | Section::Listen) => true,
        (Places::InListen, Section::Listen) => true,
        _ => false,
    }
}

/// The line of a setting that the section knows.
#[tactic(auto, using(crate::proofs::LineReadings::parts), unfolding(crate::specs::Lines::setting_line))]
fn read_setting<P: Patterns>(
    alloc: Global,
    draft: &mut Draft,
    setting: Setting,
    arguments: Arguments<'_>,
    pats: &mut P,
) -> Result<(), LineRefusal>
    ensures reads { ReadsLine (λ nothing. draft.new) (setting_line draft.old setting arguments.entry) (P.refusals pats.old) (P.refusals pats.new) (P.last_refused pats.new) result }
    ensures sound { IsSound draft.old → OnOk result (IsSound draft.new) }
    ensures unchanged { OnErr result (draft.new ≡ draft.old) }
{
    match setting {
        Setting::Bufsize => set_bufsize(draft, arguments),
        Setting::Maxrewrite => set_maxrewrite(draft, arguments),
        Setting::Mode => read_mode(draft, arguments),
        Setting::Timeout => set_timeout(draft, arguments),
        Setting::Options => read_option_line(alloc, draft, arguments, pats),
        Setting::Bind => set_bind(alloc, draft, arguments),
        Setting::Server => set_server(alloc, draft, arguments),
        Setting::Acl => read_acl_line(alloc, draft, arguments, pats),
        Setting::HttpRequest => read_rule_line(alloc, draft, Direction::Request, arguments, pats),
        Setting::HttpResponse => read_rule_line(alloc, draft, Direction::Response, arguments, pats),
        Setting::HttpAfterResponse => {
            read_rule_line(alloc, draft, Direction::After, arguments, pats)
        }
        Setting::Filter => set_filter(alloc, draft, arguments),
        Setting::Docroot => set_docroot(alloc, draft, arguments),
        Setting::Index => set_index(alloc, draft, arguments),
        Setting::Script => set_script(alloc, draft, arguments),
        Setting::Param => read_param_line(alloc, draft, arguments, pats),
    }
}

/// A line of a section.
#[tactic(auto, unfolding(crate::specs::Lines::known_line))]
fn read_known<P: Patterns>(
    alloc: Global,
    draft: &mut Draft,
    setting: Setting,
    places: Places,
    arguments: Arguments<'_>,
    pats: &mut P,
) -> Result<(), LineRefusal>
    ensures reads { ReadsLine (λ nothing. draft.new) (known_line draft.old setting places arguments.entry) (P.refusals pats.old) (P.refusals pats.new) (P.last_refused pats.new) result }
    ensures sound { IsSound draft.old → OnOk result (IsSound draft.new) }
    ensures unchanged { OnErr result (draft.new ≡ draft.old) }
{
    if is_before(draft.section) {
        return Err(LineRefusal::Refused(CfgKind::Section));
    }
    if !belongs(places, draft.section) {
        return Err(LineRefusal::Refused(CfgKind::Keyword));
    }
    read_setting(alloc, draft, setting, arguments, pats)
}

/// A line with these words.
#[tactic(auto, using(crate::proofs::LineReadings::parts), unfolding(crate::specs::Lines::words_line))]
fn read_words<P: Patterns>(
    alloc: Global,
    draft: &mut Draft,
    mut arguments: Arguments<'_>,
    pats: &mut P,
) -> Result<(), LineRefusal>
    ensures reads { ReadsLine (λ nothing. draft.new) (words_line draft.old arguments.entry) (P.refusals pats.old) (P.refusals pats.new) (P.last_refused pats.new) result }
    ensures sound { IsSound draft.old → OnOk result (IsSound draft.new) }
    ensures unchanged { OnErr result (draft.new ≡ draft.old) }
{
    let Some(first) = arguments.next() else {
        return Ok(());
    };
    match first_word_of(first) {
        FirstWord::Begins(word) => begin_section(draft, word, arguments),
        FirstWord::Sets(setting, places) => {
            read_known(alloc, draft, setting, places, arguments, pats)
        }
        FirstWord::Unknown if is_before(draft.section) => {
            Err(LineRefusal::Refused(CfgKind::Section))
        }
        FirstWord::Unknown => Err(LineRefusal::Refused(CfgKind::Keyword)),
    }
}

/// A line of the text, without its line feed and the carriage return in front of that.
#[tactic(auto, unfolding(crate::specs::Lines::line_of))]
pub fn read_line<P: Patterns>(
    alloc: Global,
    draft: &mut Draft,
    line: &[u8],
    pats: &mut P,
) -> Result<(), LineRefusal>
    ensures reads { ReadsLine (λ nothing. draft.new) (line_of draft.old line.now) (P.refusals pats.old) (P.refusals pats.new) (P.last_refused pats.new) result }
    ensures sound { IsSound draft.old → OnOk result (IsSound draft.new) }
    ensures unchanged { OnErr result (draft.new ≡ draft.old) }
{
    let words = words_of_line(alloc, line)?;
    read_words(alloc, draft, Arguments::of(&words), pats)
}
