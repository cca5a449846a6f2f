//! The canonical text of a configuration. Nothing here reads one.
#![tactic(auto)]

ghost use Rattle.std.specs.Prelude.{◌≡◌, true, false, IfOk, IsErrOf};
ghost use Rattle.cfg_print.specs.Printed.{config_text};
ghost use Rattle.cfg_print.specs.Fits.{fits};

mod actions;
mod calls;
mod conditions;
mod exprs;
mod fault;
mod filters;
mod fits;
mod formats;
mod numbers;
mod page;
mod pairs;
mod replies;
mod rules;
mod settings;
mod table;
mod whole;
mod words;

use crate::fits::fits;
use crate::page::Page;
use crate::whole::put_config;
pub use fault::PrintFault;
use http_rules::Config;
use px_link::Bytes;
use std::alloc::Global;

/// The canonical text of a configuration, or a refusal where it would be longer than a configuration's text may be: in all, in a line, or in the number of its `acl` lines.
pub fn print_config(alloc: Global, config: &Config) -> Result<Bytes, PrintFault>
    ensures text { IfOk result (λ text. text ≡ config_text config.now) }
    ensures fits { IfOk result (λ text. fits config.now ≡ true) }
    ensures too_long { IsErrOf result PrintFault.TooLong → fits config.now ≡ false }
{
    let mut page = Page::new(alloc);
    let lines = put_config(alloc, &mut page, config)?;
    if !fits(alloc, &page.text, lines)? {
        return Err(PrintFault::TooLong);
    }
    Ok(Bytes::from(page.text))
}
