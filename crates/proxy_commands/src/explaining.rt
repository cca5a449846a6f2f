//! What `explain` writes of a record.
ghost use Rattle.std.specs.Prelude.{◌<◌, vec_len, IfOk};
ghost use Rattle.http_rules.specs.Valid.{IsValid};
ghost use Rattle.rec_format.specs.Read.{meaning_of};
ghost use Rattle.proxy_commands.specs.Explained.{IsExplanation, IsBlockExplanation};

use http_model::OutOfMemory;
use http_rules::Config;
use px_explain::laws::sessions_answer_so;
use px_explain::{explain, explain_blocks, trace_text};
use px_link::Bytes;
use rec_format::Record;
use std::alloc::Global;

/// What is told of the first exchange of a record's first connection. Want of memory is the only error.
pub fn explanation(alloc: Global, config: &Config, recorded: &Record) -> Result<Bytes, OutOfMemory>
    requires valid { IsValid config.now }
    requires some { 0 < vec_len recorded.now.conns }
    ensures { IfOk result (IsExplanation config.now (meaning_of recorded.now)) }
{
    sessions_answer_so();
    let trace = explain(alloc, config, &recorded.conns[0])?;
    trace_text(alloc, &trace)
}

/// The same with the arrays that the rules left.
pub fn block_explanation(
    alloc: Global,
    config: &Config,
    recorded: &Record,
) -> Result<Bytes, OutOfMemory>
    requires valid { IsValid config.now }
    requires some { 0 < vec_len recorded.now.conns }
    ensures { IfOk result (IsBlockExplanation config.now (meaning_of recorded.now)) }
{
    sessions_answer_so();
    explain_blocks(alloc, config, &recorded.conns[0])
}
