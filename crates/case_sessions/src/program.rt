//! The program's one call, as rows make it. It stands beside this crate, and whoever runs the rows hands it in.
use crate::served::MemNetworks;
use proxy_commands::Status;
use px_link::{MemFiles, MemSink};
use px_pattern::RealPatterns;
use std::alloc::Global;

/// The program, over what rows hand it: all of it stands in memory.
pub trait Program {
    /// What the program ends with, by these words.
    fn call(
        alloc: Global,
        words: &[String],
        files: &mut MemFiles,
        nets: &mut MemNetworks<'_>,
        out: &mut MemSink,
        pats: &mut RealPatterns,
    ) -> Status;
}
