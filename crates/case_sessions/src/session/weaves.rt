//! Sessions of the connections of a record, interleaved over shared cores by the record's turns.
use crate::program::Program;
use crate::session::facts::facts_of;
use crate::session::sessions::reply_to;
use case_rows::{Answers, Fault};
use std::alloc::Global;

/// The facts of the report that these words write.
fn facts_by<P: Program>(
    alloc: Global,
    words: &str,
    cfg: &[u8],
    rec: &[u8],
) -> Result<Vec<u8>, Fault> {
    let reply = reply_to::<P>(alloc, words, cfg, rec, Vec::new(alloc))?;
    facts_of(alloc, reply.out.written())
}

/// What the connections of a record come to over 1, 2 and 7 shared cores: the facts of the report over one, and behind them those over
/// others where they differ.
pub fn woven_made<P: Program>(alloc: Global, cfg: &[u8], rec: &[u8]) -> Result<Vec<u8>, Fault> {
    let wanted = facts_by::<P>(alloc, "weave;c;r;1;", cfg, rec)?;
    let mut answers = Answers::new(alloc);
    answers.more(&wanted);
    for words in ["weave;c;r;2;", "weave;c;r;7;"] {
        let facts = facts_by::<P>(alloc, words, cfg, rec)?;
        if facts.as_slice() != wanted.as_slice() {
            answers.more(words.as_bytes());
            answers.more(b"\n");
            answers.more(&facts);
        }
    }
    answers.into_text()
}
