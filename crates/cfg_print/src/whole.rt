//! The parts of a canonical text, in their order.
ghost use Rattle.std.specs.Prelude.{◌≡◌, ◌+◌, ◌++◌, [], codes, fold, min, IfOk, OnOk};
ghost use Rattle.cfg_expr.specs.Condition.Lines.{most_lines};
ghost use Rattle.cfg_print.specs.Table.{tabled, with_term, table_text, count_lines};
ghost use Rattle.cfg_print.specs.Printed.{all_terms, keys_of, ruling_text, filters_text, config_text};

use crate::filters::put_filters;
use crate::page::Page;
use crate::pairs::{pair_names, plain_rules, put_pairs, value_rules};
use crate::rules::put_rules;
use crate::settings::put_settings;
use crate::table::{Table, add_rules};
use http_rules::Config;
use px_link::{Bytes, ItemList, OutOfMemory};
use std::alloc::Global;

/// Puts the terms of all rules into a table, and their lines behind a text.
#[tactic(auto, unfolding(crate::specs::Printed::all_terms))]
fn add_all(
    alloc: Global,
    page: &mut Page,
    table: &mut Table,
    config: &Config,
) -> Result<(), OutOfMemory>
    ensures { OnOk result (tabled page.new.text.items table.new.keys table.new.lines ≡ fold with_term (tabled page.old.text.items table.old.keys table.old.lines) (all_terms config.now)) }
{
    let names = pair_names(&config.application);
    let requests = config.request.as_slice();
    add_rules(alloc, page, table, plain_rules(names, requests))?;
    add_rules(alloc, page, table, config.response.as_slice())?;
    add_rules(alloc, page, table, config.after.as_slice())?;
    add_rules(alloc, page, table, value_rules(names, requests))
}

/// Puts the table of a configuration behind a text.
fn put_table(alloc: Global, page: &mut Page, config: &Config) -> Result<Table, OutOfMemory>
    ensures text { OnOk result (page.new.text.items ≡ page.old.text.items ++ table_text [] (all_terms config.now)) }
    ensures keys { IfOk result (λ table. table.keys ≡ keys_of config.now) }
    ensures lines { IfOk result (λ table. table.lines ≡ min (count_lines [] (all_terms config.now)) (most_lines + 1)) }
{
    let mut table = Table {
        keys: ItemList::new(alloc),
        lines: 0,
    };
    add_all(alloc, page, &mut table, config)?;
    Ok(table)
}

/// Puts the lines of rules behind a text.
#[tactic(auto, unfolding(crate::specs::Printed::ruling_text))]
fn put_ruling(
    alloc: Global,
    page: &mut Page,
    keys: &ItemList<Bytes>,
    config: &Config,
) -> Result<(), OutOfMemory>
    ensures { OnOk result (page.new.text.items ≡ page.old.text.items ++ ruling_text keys.now config.now) }
{
    let names = pair_names(&config.application);
    let requests = config.request.as_slice();
    put_rules(
        alloc,
        page,
        keys,
        b"http-request",
        plain_rules(names, requests),
    )?;
    put_rules(
        alloc,
        page,
        keys,
        b"http-response",
        config.response.as_slice(),
    )?;
    put_rules(
        alloc,
        page,
        keys,
        b"http-after-response",
        config.after.as_slice(),
    )?;
    put_pairs(alloc, page, keys, names, value_rules(names, requests))
}

/// Puts the lines of filters behind a text.
fn put_both_filters(page: &mut Page, config: &Config) -> Result<(), OutOfMemory>
    ensures { OnOk result (page.new.text.items ≡ page.old.text.items ++ (filters_text (codes "req") config.now.req_filters ++ filters_text (codes "res") config.now.res_filters)) }
{
    put_filters(page, b"req", config.req_filters.as_slice())?;
    put_filters(page, b"res", config.res_filters.as_slice())
}

/// Puts the canonical text of a configuration behind a text, and tells how many `acl` lines it has, or 1025 where there are more.
#[tactic(auto, unfolding(crate::specs::Printed::config_text))]
pub(crate) fn put_config(
    alloc: Global,
    page: &mut Page,
    config: &Config,
) -> Result<u32, OutOfMemory>
    ensures text { OnOk result (page.new.text.items ≡ page.old.text.items ++ config_text config.now) }
    ensures lines { IfOk result (λ lines. lines ≡ min (count_lines [] (all_terms config.now)) (most_lines + 1)) }
{
    put_settings(page, config)?;
    let table = put_table(alloc, page, config)?;
    put_ruling(alloc, page, &table.keys, config)?;
    put_both_filters(page, config)?;
    Ok(table.lines)
}
