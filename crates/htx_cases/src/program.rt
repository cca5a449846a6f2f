//! The program's one call, for the rows of `case_sessions`.
use case_sessions::Program;
use case_sessions::served::MemNetworks;
use proxy_call::{Status, htx_proxy};
use px_link::{MemFiles, MemSink};
use px_pattern::RealPatterns;
use std::alloc::Global;

/// That call.
pub struct TopCall;

impl Program for TopCall {
    fn call(
        alloc: Global,
        words: &[String],
        files: &mut MemFiles,
        nets: &mut MemNetworks<'_>,
        out: &mut MemSink,
        pats: &mut RealPatterns,
    ) -> Status {
        htx_proxy(alloc, words, files, nets, out, pats)
    }
}
