//! Programs that carry a trace out line by line.
ghost use Rattle.std.specs.Prelude.{◌≡◌, ◌<◌, ◌+◌, ◌^◌, ℕ, List, IfOk, OnErr};
ghost use Rattle.trace_reader.specs.Ahead.{left};
ghost use Rattle.trace_text.specs.Failures.{CountsReads, CountsWrites, ReportsWrite};
ghost use Rattle.trace_text.specs.Played.{Enough, Plays, PlaysFront, WritesEnd, WritesEndFront};
ghost use Rattle.trace_text.specs.Reports.{IsWriteBegun, IsWritten};
ghost use Rattle.trace_text.specs.Session.{Answer};

use crate::fault::Fault;
use crate::report::ReportLine;
use crate::sink::Sink;
use crate::trace::faulted;
use std::alloc::Global;
use trace_reader::{EngineFault, MOST_BYTES, Outcome, ReadAhead, Source, read_line};

/// The most lines of a trace.
pub const MOST_LINES: u64 = 1_048_576;

/// What carries a trace out, line by line.
pub trait Player {
    ghost use Rattle.trace_reader.specs.declared.outcome.Outcome.{Outcome};
    ghost use Rattle.trace_text.specs.declared.report.ReportLine.{ReportLine};

    /// What holds of it before the line of a number.
    ghost ready: { ℕ → Self → Type 0 };

    /// The effect of a line, by its number, and its answer.
    ghost does: { ℕ → List ℕ → Self → Answer → Self → Type 0 };

    /// The end of its report after the last line.
    ghost ends: { Self → List ReportLine → Outcome → Type 0 };

    /// Carries out the line of this number and writes its report, and gives the outcome if the line ends the run. For a
    /// line of over 256 bytes any 257 serve.
    fn play<K: Sink>(
        &mut self,
        number: u64,
        line: &[u8],
        sink: &mut K,
        text: &mut String,
    ) -> Result<Option<Outcome>, EngineFault>
        requires number { number < 2 ^ 62 }
        requires ready { ready number self.old }
        ensures played { IfOk result
            (λ ended. Plays does number line.now self.old self.new (K.contents sink.old)
            (K.contents sink.new) ended) }
        ensures ready { ready (number + 1) self.new }
        ensures front { OnErr result
            (PlaysFront does number line.now self.old (K.contents sink.old)
            (K.contents sink.new)) }
        ensures counted { ReportsWrite (K.failures sink.old) (K.failures sink.new) result };

    /// Ends the report of a whole trace.
    fn end<K: Sink>(&self, sink: &mut K, text: &mut String) -> Result<Outcome, EngineFault>
        ensures ok { IfOk result (WritesEnd ends self.now (K.contents sink.old) (K.contents sink.new)) }
        ensures front { OnErr result (WritesEndFront ends self.now (K.contents sink.old) (K.contents sink.new)) }
        ensures counted { ReportsWrite (K.failures sink.old) (K.failures sink.new) result };
}

/// Reads a trace line by line, lets a player carry it out, and writes its report. It reads ahead of the line that it
/// carries out. Err if the source or the sink failed, once, or memory was refused: the text written until then is a
/// beginning of the report.
pub fn play_trace<P: Player, S: Source, K: Sink>(
    global: Global,
    player: &mut P,
    source: &mut S,
    sink: &mut K,
) -> Result<Outcome, EngineFault>
    requires enough { Enough P.does }
    requires ready { P.ready 1 player.old }
    ensures report { IfOk result
        (IsWritten P.does P.ends player.old (S.remaining source.old) (K.contents sink.old)
        (K.contents sink.new)) }
    ensures begun { OnErr result
        (IsWriteBegun P.does P.ends player.old (S.remaining source.old) (K.contents sink.old)
        (K.contents sink.new)) }
    ensures reads { CountsReads (S.failures source.old) (S.failures source.new) result }
    ensures writes { CountsWrites (K.failures sink.old) (K.failures sink.new) result }
{
    let mut line = Vec::with_capacity(global, MOST_BYTES + 1).map_err(|_| EngineFault::NoMemory)?;
    let mut text = String::with_capacity(global, MOST_BYTES).map_err(|_| EngineFault::NoMemory)?;
    let mut ahead = ReadAhead::new(global).map_err(|_| EngineFault::NoMemory)?;
    play_lines(player, source, &mut ahead, &mut line, sink, &mut text)
}

/// Lets a player carry out the remaining lines of a trace. `ahead` has the bytes that were read ahead of them, `line`
/// and `text` are room for one line of the trace and of the report.
fn play_lines<P: Player, S: Source, K: Sink>(
    player: &mut P,
    source: &mut S,
    ahead: &mut ReadAhead,
    line: &mut Vec<u8>,
    sink: &mut K,
    text: &mut String,
) -> Result<Outcome, EngineFault>
    requires enough { Enough P.does }
    requires ready { P.ready 1 player.old }
    ensures report { IfOk result
        (IsWritten P.does P.ends player.old (left ahead.old (S.remaining source.old))
        (K.contents sink.old) (K.contents sink.new)) }
    ensures begun { OnErr result
        (IsWriteBegun P.does P.ends player.old (left ahead.old (S.remaining source.old))
        (K.contents sink.old) (K.contents sink.new)) }
    ensures reads { CountsReads (S.failures source.old) (S.failures source.new) result }
    ensures writes { CountsWrites (K.failures sink.old) (K.failures sink.new) result }
{
    for number in 1..MOST_LINES + 1 {
        if !read_line(source, ahead, line)? {
            return player.end(sink, text);
        }
        let played = player.play(number, line.as_slice(), sink, text)?;
        if let Some(outcome) = played {
            return Ok(outcome);
        }
    }
    if read_line(source, ahead, line)? {
        return faulted(sink, text, MOST_LINES + 1, Fault::Lines);
    }
    player.end(sink, text)
}
