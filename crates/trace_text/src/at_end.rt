//! Replaying a trace whose oracle looks once, at the end.
ghost use Rattle.std.specs.Prelude.{◌≡◌, ◌<◌, IfErr, IfOk, IfSome, None, OnErr};
ghost use Rattle.trace_text.specs.Failures.{CountsReads, CountsWrites};
ghost use Rattle.trace_text.specs.Oracles.{agreed};
ghost use Rattle.trace_text.specs.Ready.{IsReady};
ghost use Rattle.trace_text.specs.Replay.{Ends, IsBegun, IsReplayed};
ghost use Rattle.trace_text.specs.Session.{RunsLine, at_start};
ghost use Rattle.trace_text.specs.View.{standing_of};

use crate::buffered::{Stopped, play_buffered};
use crate::oracle::NoOracle;
use crate::player::{Player, play_trace};
use crate::session::Session;
use crate::sink::Sink;
use crate::trace::{report_answer, report_audited, report_end};
use std::alloc::{Allocator, Global};
use std::io::{Read, Write};
use table_tree::Reads;
use trace_reader::{EngineFault, Outcome, Source};

/// Replays a trace as `replay` does, but judges no step; after the last line it compares the kept state once with a
/// walk of all words. It finds no difference. The report is one that `replay` may write.
pub fn replay_at_end<A: Allocator + Copy, S: Source, K: Sink>(
    global: Global,
    alloc: A,
    source: &mut S,
    sink: &mut K,
) -> Result<Outcome, EngineFault>
    ensures report { IfOk result
        (λ outcome. IsReplayed agreed (S.remaining source.old) (K.contents sink.old)
        (K.contents sink.new) outcome) }
    ensures begun { OnErr result
        (IsBegun agreed (S.remaining source.old) (K.contents sink.old) (K.contents sink.new)) }
    ensures reads { CountsReads (S.failures source.old) (S.failures source.new) result }
    ensures writes { CountsWrites (K.failures sink.old) (K.failures sink.new) result }
{
    let mut unasked = Unasked::new(global, alloc);
    let outcome = play_trace(global, &mut unasked, source, sink);
    // As in `session::checked`.
    drop(unasked);
    outcome
}

/// The same from a reader to a writer, which it gives back with the whole report written to it. The report goes through
/// a buffer, which is written out even if the replay stops early.
pub fn replay_at_end_buffered<A: Allocator + Copy, R: Read + Drop, W: Write + Drop>(
    global: Global,
    alloc: A,
    reader: R,
    writer: W,
) -> Result<(Outcome, W), Stopped<W>>
    ensures report { IfOk result
        (λ r. IsReplayed agreed (R.remaining reader) (W.contents writer) (W.contents r.1) r.0) }
    ensures begun { IfErr result
        (λ s. IfSome s.writer
        (λ w. IsBegun agreed (R.remaining reader) (W.contents writer) (W.contents w))) }
{
    let mut unasked = Unasked::new(global, alloc);
    let answer = play_buffered(global, &mut unasked, reader, writer);
    // As in `session::checked`.
    drop(unasked);
    answer
}

/// What carries a trace out whose steps no oracle looks at.
#[derive(Drop)]
struct Unasked<A: Allocator> {
    global: Global,
    session: Session<A>,
}

impl<A: Allocator + Copy> Unasked<A> {
    fn new(global: Global, alloc: A) -> Unasked<A>
        ensures start { standing_of result.session ≡ at_start }
        ensures ready { IsReady result.session }
    {
        Unasked {
            global,
            session: Session::new(global, alloc),
        }
    }
}

impl<A: Allocator + Copy> Player for Unasked<A> {
    ghost ready = { λ number unasked. IsReady unasked.session
        × ((standing_of unasked.session).steps < number) };

    ghost does = { λ number line old answer new. RunsLine agreed number line
        (standing_of old.session) answer (standing_of new.session) };

    ghost ends = { λ unasked. Ends (standing_of unasked.session) };

    fn play<K: Sink>(
        &mut self,
        number: u64,
        line: &[u8],
        sink: &mut K,
        text: &mut String,
    ) -> Result<Option<Outcome>, EngineFault> {
        let ran = self.session.run(&mut NoOracle, number, line);
        report_answer(&self.session, sink, text, number, ran)
    }

    fn end<K: Sink>(&self, sink: &mut K, text: &mut String) -> Result<Outcome, EngineFault> {
        let steps = self.session.steps();
        let disagreements = self.session.disagreements();
        match self.session.audited(&mut Reads::new()) {
            Ok(None) => report_end(sink, text, steps, disagreements),
            Ok(Some(found)) => {
                report_audited(sink, text, Some(found))?;
                report_end(sink, text, steps, disagreements.saturating_add(1))
            }
            Err(_) => Err(EngineFault::NoMemory),
        }
    }
}
