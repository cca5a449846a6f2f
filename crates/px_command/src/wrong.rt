//! Which word is wrong where words name a command and stand in order, and no list has them.
use crate::options::{MOST_CONNECTIONS, MOST_SETS, MOST_WORKERS};
use crate::words::{is_file_word, number, one_behind};

/// A word that is out of the bounds of its place.
#[derive(Clone, Copy)]
pub struct Wrong<'a> {
    pub place: &'static str,
    pub word: &'a str,
    pub bounds: &'static str,
}

/// Whether a word is among the words.
pub fn has_word(words: &[String], word: &str) -> bool {
    words.iter().any(|known| known.as_str() == word)
}

/// The word in a place, where it names no file.
fn wrong_file<'a>(place: &'static str, word: &'a str) -> Option<Wrong<'a>> {
    if is_file_word(word) {
        return None;
    }
    Some(Wrong {
        place,
        word,
        bounds: "the name of a file is not empty and does not begin with a dash",
    })
}

/// The word in a place, where it is no number from `least` to `most`.
fn wrong_number<'a>(
    place: &'static str,
    word: &'a str,
    least: u32,
    most: u32,
    bounds: &'static str,
) -> Option<Wrong<'a>> {
    if number(word, least, most).is_some() {
        return None;
    }
    Some(Wrong {
        place,
        word,
        bounds,
    })
}

/// The first word that is wrong of the two of `serve`.
fn wrong_serve<'a>(cfg: &'a str, count: &'a str) -> Option<Wrong<'a>> {
    if let Some(wrong) = wrong_file("CFG", cfg) {
        return Some(wrong);
    }
    wrong_number(
        "COUNT",
        count,
        1,
        1000000,
        "1 to 1000000, in 1 to 10 digits",
    )
}

/// The first word that is wrong of the two of `drill`.
fn wrong_drill<'a>(seed: &'a str, count: &'a str) -> Option<Wrong<'a>> {
    let bounds = "0 to 2147483647, in 1 to 10 digits";
    if let Some(wrong) = wrong_number("SEED", seed, 0, 2147483647, bounds) {
        return Some(wrong);
    }
    wrong_number("COUNT", count, 0, 4000, "0 to 4000, in 1 to 10 digits")
}

/// The first word that is wrong of two files.
fn wrong_files<'a>(cfg: &'a str, rec: &'a str) -> Option<Wrong<'a>> {
    if let Some(wrong) = wrong_file("CFG", cfg) {
        return Some(wrong);
    }
    wrong_file("REC", rec)
}

/// The first word that is wrong of the three of `weave`.
fn wrong_weave<'a>(cfg: &'a str, rec: &'a str, cores: &'a str) -> Option<Wrong<'a>> {
    if let Some(wrong) = wrong_files(cfg, rec) {
        return Some(wrong);
    }
    wrong_number("K", cores, 1, 256, "1 to 256, in 1 to 10 digits")
}

/// The first word that is wrong of the two behind a command.
fn wrong_of_two<'a>(command: &str, first: &'a str, second: &'a str) -> Option<Wrong<'a>> {
    if command == "drill" {
        return wrong_drill(first, second);
    }
    if command == "check" {
        return if first == "--record" || first == "--all" || first == "--print" {
            wrong_file("FILE", second)
        } else {
            None
        };
    }
    if command == "serve" {
        return wrong_serve(first, second);
    }
    wrong_files(first, second)
}

/// The first word that is wrong of the three behind a command.
fn wrong_of_three<'a>(
    command: &str,
    first: &'a str,
    second: &'a str,
    third: &'a str,
) -> Option<Wrong<'a>> {
    if command == "weave" {
        return wrong_weave(first, second, third);
    }
    if command == "explain" && first == "--blocks" {
        return wrong_files(second, third);
    }
    None
}

/// The word that is wrong of the value of this option of `run`.
fn wrong_option<'a>(name: &str, value: &'a str) -> Option<Wrong<'a>> {
    if name == "--sets" {
        return wrong_number("K", value, 1, MOST_SETS, "1 to 4096, in 1 to 10 digits");
    }
    if name == "--connections" {
        return wrong_number(
            "N",
            value,
            1,
            MOST_CONNECTIONS,
            "1 to 1000000, in 1 to 10 digits",
        );
    }
    if name == "--workers" {
        return wrong_number("W", value, 1, MOST_WORKERS, "1 to 64, in 1 to 10 digits");
    }
    None
}

/// The first word that is wrong of the options of `run`.
fn wrong_options(words: &[String]) -> Option<Wrong<'_>> {
    for pair in words.windows(2) {
        if let [name, value] = pair {
            if let Some(wrong) = wrong_option(name.as_str(), value.as_str()) {
                return Some(wrong);
            }
        }
    }
    None
}

/// The first word that is wrong of those behind `run`.
fn wrong_run(words: &[String]) -> Option<Wrong<'_>> {
    let [cfg, options @ ..] = words else {
        return None;
    };
    if cfg.as_str().starts_with("--") {
        return None;
    }
    if let Some(wrong) = wrong_file("CFG", cfg.as_str()) {
        return Some(wrong);
    }
    wrong_options(options)
}

/// The first word that is wrong of those behind a command.
pub fn wrong_word(words: &[String]) -> Option<Wrong<'_>> {
    if let [command, behind @ ..] = words {
        if command.as_str() == "run" {
            return wrong_run(behind);
        }
    }
    if let Some(file) = one_behind(words, "check") {
        return wrong_file("FILE", file);
    }
    if let [command, first, second, third] = words {
        return wrong_of_three(
            command.as_str(),
            first.as_str(),
            second.as_str(),
            third.as_str(),
        );
    }
    let [command, first, second] = words else {
        return None;
    };
    wrong_of_two(command.as_str(), first.as_str(), second.as_str())
}
