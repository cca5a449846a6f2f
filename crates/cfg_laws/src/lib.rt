//! What the canonical text of a configuration spells is read back, and what is read from any text can be spelled.
#![tactic(auto)]

mod laws;

pub use laws::{
    addresses_read_back, calls_read_back, conditions_read_back, configs_read_back, exprs_read_back,
    formats_read_back, lines_read_back, listing_read_back, loaded_is_spelled, loaded_reads_back,
    numbers_read_back, pairs_that_are_read_are_spelled, rules_of_lines_are_spelled,
    rules_read_back, rules_that_are_read_are_spelled, settings_read_back,
    settings_that_are_read_are_spelled, table_read_back, tests_read_back, what_is_read_is_spelled,
    whole_exprs_read_back, whole_read_back, words_read_back,
};
