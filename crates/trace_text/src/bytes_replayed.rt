//! A trace replayed from bytes to bytes: no file is read and none is written.
ghost use Rattle.std.specs.Prelude.{[], IfOk, OnErr, Some};
ghost use Rattle.trace_text.specs.Oracles.{agreed};
ghost use Rattle.trace_text.specs.Replay.{IsBegun, IsReplayed};

use crate::bytes_read::Bytes;
use crate::bytes_written::Collected;
use crate::trace::replay;
use std::alloc::Global;
use trace_reader::{EngineFault, Outcome};

/// The result of a replay: its report and its outcome.
#[derive(Drop)]
pub struct Replayed {
    pub outcome: Result<Outcome, EngineFault>,
    /// The report, or a beginning of it if memory was refused.
    pub report: Vec<u8>,
}

/// Replays a trace, each step judged and audited. Err only if memory is refused.
pub fn replay_bytes(alloc: Global, trace: &[u8]) -> Replayed
    ensures whole { IfOk result.outcome
        (IsReplayed agreed (Some trace.now) (Some []) (Some result.report.items)) }
    ensures begun { OnErr result.outcome (IsBegun agreed (Some trace.now) (Some []) (Some result.report.items)) }
{
    let mut source = Bytes { left: trace };
    let mut sink = Collected {
        bytes: Vec::new(alloc),
        failed: 0,
    };
    let outcome = replay(alloc, alloc, &mut source, &mut sink);
    let Collected { bytes, failed: _ } = sink;
    Replayed {
        outcome,
        report: bytes,
    }
}
