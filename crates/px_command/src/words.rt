//! Single words, and lists of words that begin with a command.
ghost use Rattle.std.specs.Prelude.{◌≡◌, ◌∷◌, ◌↔◌, [], ℕ, List, map, IsTrue, IfSome, IfNone, string_bytes};
ghost use Rattle.px_command.specs.Command.{IsFileWord, IsNumber};

use px_bytes::read_decimal;

/// Whether a word may name a file: it isn't empty, and no dash stands in front.
pub fn is_file_word(word: &str) -> bool
    ensures { IsTrue result ↔ IsFileWord word.now }
{
    let bytes = word.as_bytes();
    !bytes.is_empty() && bytes[0] != b'-'
}

/// The number within bounds that a word of 1 to 10 decimal digits is.
pub fn number(word: &str, least: u32, most: u32) -> Option<u32>
    ensures some { IfSome result (IsNumber least most word.now) }
    ensures none { IfNone result ((n : ℕ) → IsNumber least most word.now n → ⊥) }
{
    let number = read_decimal(word.as_bytes(), 10)?;
    if number < u64::from(least) || u64::from(most) < number {
        return None;
    }
    Some(number as u32)
}

/// Whether the words are this one alone.
pub fn is_alone(words: &[String], word: &str) -> bool
    ensures { IsTrue result ↔ map string_bytes words.now ≡ word.now ∷ [] }
{
    match words {
        [only] => only.as_str() == word,
        _ => false,
    }
}

/// The word behind a command, where it is the last.
pub fn one_behind<'a>(words: &'a [String], command: &str) -> Option<&'a str>
    ensures some { IfSome result (λ word. map string_bytes words.now ≡ command.now ∷ word.now ∷ []) }
    ensures none { IfNone result ((word : List ℕ) → map string_bytes words.now ≡ command.now ∷ word ∷ [] → ⊥) }
{
    let [name, word] = words else {
        return None;
    };
    if name.as_str() != command {
        return None;
    }
    Some(word.as_str())
}

/// Whether the words are these two.
pub fn are_two(words: &[String], first: &str, second: &str) -> bool
    ensures { IsTrue result ↔ map string_bytes words.now ≡ first.now ∷ second.now ∷ [] }
{
    match one_behind(words, first) {
        Some(word) => word == second,
        None => false,
    }
}

/// The two words behind a command, where they are the last.
pub fn two_behind<'a>(words: &'a [String], command: &str) -> Option<(&'a str, &'a str)>
    ensures some { IfSome result (λ both. map string_bytes words.now ≡ command.now ∷ both.0.now ∷ both.1.now ∷ []) }
    ensures none { IfNone result ((first second : List ℕ) → map string_bytes words.now ≡ command.now ∷ first ∷ second ∷ [] → ⊥) }
{
    let [name, first, second] = words else {
        return None;
    };
    if name.as_str() != command {
        return None;
    }
    Some((first.as_str(), second.as_str()))
}

/// The word behind a command, and those behind it.
pub fn some_behind<'a>(words: &'a [String], command: &str) -> Option<(&'a str, &'a [String])>
    ensures some { IfSome result (λ told. map string_bytes words.now ≡ command.now ∷ told.0.now ∷ map string_bytes told.1.now) }
    ensures none { IfNone result ((first : List ℕ) (behind : List (List ℕ)) → map string_bytes words.now ≡ command.now ∷ first ∷ behind → ⊥) }
{
    let [name, first, behind @ ..] = words else {
        return None;
    };
    if name.as_str() != command {
        return None;
    }
    Some((first.as_str(), behind))
}

/// The three words behind a command, where they are the last.
pub fn three_behind<'a>(words: &'a [String], command: &str) -> Option<(&'a str, &'a str, &'a str)>
    ensures some { IfSome result (λ all. map string_bytes words.now ≡ command.now ∷ all.0.now ∷ all.1.now ∷ all.2.now ∷ []) }
    ensures none { IfNone result ((first second third : List ℕ) → map string_bytes words.now ≡ command.now ∷ first ∷ second ∷ third ∷ [] → ⊥) }
{
    let [name, first, second, third] = words else {
        return None;
    };
    if name.as_str() != command {
        return None;
    }
    Some((first.as_str(), second.as_str(), third.as_str()))
}
