//! Carrying a trace out from a reader to a writer of std.
ghost use Rattle.std.specs.Prelude.{◌≡◌, IfErr, IfOk, IfSome, IsErr, MatchResult, Ok};
ghost use Rattle.std.specs.Io.KnownBytes.{Keeps};
ghost use Rattle.std.specs.Io.Buffered.{writer_contents};
ghost use Rattle.trace_text.specs.Oracles.{agreed};
ghost use Rattle.trace_text.specs.Played.{Enough};
ghost use Rattle.trace_text.specs.Replay.{IsBegun, IsReplayed};
ghost use Rattle.trace_text.specs.Reports.{IsWriteBegun, IsWritten};

use crate::oracle::GhostOracle;
use crate::player::{Player, play_trace};
use crate::trace::Replaying;
use std::alloc::{Allocator, Global};
use std::io::{BufWriter, Error, Read, Write};
use trace_reader::{Counting, EngineFault, Outcome};

/// Why a run stopped before the end of its report, and the system's error for a read or a write that failed.
#[derive(Debug, Drop)]
pub struct Stopped<W> {
    pub fault: EngineFault,
    pub cause: Option<Error>,
    /// The writer with the text written so far, if its buffer could be written out.
    pub writer: Option<W>,
}

/// Replays a trace, and gives the writer back with the whole report written to it. The report goes through a buffer,
/// which is written out even if the replay stops early.
pub fn replay_buffered<A: Allocator + Copy, R: Read + Drop, W: Write + Drop>(
    global: Global,
    alloc: A,
    reader: R,
    writer: W,
) -> Result<(Outcome, W), Stopped<W>>
    ensures report { IfOk result
        (λ r. IsReplayed agreed (R.remaining reader) (W.contents writer) (W.contents r.1) r.0) }
    ensures begun { IfErr result
        (λ s. IfSome s.writer
        (λ w. IsBegun agreed (R.remaining reader) (W.contents writer) (W.contents w))) }
{
    let mut oracle = GhostOracle;
    let mut replaying = Replaying::new(global, alloc, &mut oracle);
    let answer = play_buffered(global, &mut replaying, reader, writer);
    // As in `session::checked`.
    drop(replaying);
    answer
}

/// Lets a player carry out a trace, and gives the writer back with the whole report written to it. The report goes
/// through a buffer, which is written out even if the run stops early.
pub fn play_buffered<P: Player, R: Read + Drop, W: Write + Drop>(
    global: Global,
    player: &mut P,
    reader: R,
    writer: W,
) -> Result<(Outcome, W), Stopped<W>>
    requires enough { Enough P.does }
    requires ready { P.ready 1 player.old }
    ensures report { IfOk result
        (λ r. IsWritten P.does P.ends player.old (R.remaining reader) (W.contents writer)
        (W.contents r.1) r.0) }
    ensures begun { IfErr result
        (λ s. IfSome s.writer
        (λ w. IsWriteBegun P.does P.ends player.old (R.remaining reader)
        (W.contents writer) (W.contents w))) }
{
    let Ok(writer) = BufWriter::new(global, writer) else {
        return Err(stop_at(EngineFault::NoMemory, None, None));
    };
    let mut source = Counting::new(reader);
    let mut sink = Counting::new(writer);
    let answer = play_trace(global, player, &mut source, &mut sink);
    finish(answer, source, sink)
}

/// The answer of a program whose report goes through a buffer, and the writer with the whole report. The buffer is
/// written out even if the program stopped early. A fault is passed on as it was answered; if the buffer can't be
/// written out the fault is Write.
pub fn finish<R: Read + Drop, W: Write + Drop>(
    answer: Result<Outcome, EngineFault>,
    source: Counting<R>,
    sink: Counting<BufWriter<W>>,
) -> Result<(Outcome, W), Stopped<W>>
    ensures ok { IfOk result
        (λ r. (answer ≡ Ok r.0)
        × Keeps (writer_contents W.contents sink.device) (W.contents r.1)) }
    ensures fault { IfErr result
        (λ s. MatchResult answer (λ _. s.fault ≡ EngineFault.Write) (λ fault. s.fault ≡ fault)) }
    ensures kept { IfErr result
        (λ s. IfSome s.writer
        (λ w. IsErr answer × Keeps (writer_contents W.contents sink.device) (W.contents w))) }
{
    let (writer, cause) = sink.into_parts();
    match answer {
        Ok(outcome) => match writer.into_inner() {
            Ok(writer) => Ok((outcome, writer)),
            Err(failed) => Err(stop_at(EngineFault::Write, Some(failed.into_error()), None)),
        },
        Err(EngineFault::Read) => {
            let (_reader, cause) = source.into_parts();
            Err(stop_at(EngineFault::Read, cause, written_out(writer)))
        }
        Err(EngineFault::Write) => Err(stop_at(EngineFault::Write, cause, written_out(writer))),
        Err(EngineFault::NoMemory) => Err(stop_at(
            EngineFault::NoMemory,
            None,
            written_out(writer),
        )),
    }
}

/// The writer with the bytes of its buffer. None if they can't be written out.
fn written_out<W: Write + Drop>(writer: BufWriter<W>) -> Option<W>
    ensures { IfSome result (λ w. Keeps (writer_contents W.contents writer) (W.contents w)) }
{
    match writer.into_inner() {
        Ok(writer) => Some(writer),
        Err(_) => None,
    }
}

fn stop_at<W>(fault: EngineFault, cause: Option<Error>, writer: Option<W>) -> Stopped<W>
    ensures { result ≡ record { fault = fault; cause = cause; writer = writer } }
{
    Stopped {
        fault,
        cause,
        writer,
    }
}
