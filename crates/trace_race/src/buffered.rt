//! Racing from a reader to a writer of std.
ghost use Rattle.std.specs.Prelude.{◌≡◌, IfErr, IfOk, IfSome, IsErr, Ok, if◌then◌else◌};
ghost use Rattle.trace_race.specs.declared.fault.RaceFault.TheVariants.{Engine, Start};
ghost use Rattle.trace_race.specs.Raced.{IsRaceBegun, IsRaced};

use crate::fault::RaceFault;
use crate::racing::race;
use cpu_threads::Gate;
use std::alloc::Global;
use std::io::{BufWriter, Error, Read, Write};
use std::sync::Wait;
use std::thread::Threads;
use trace_reader::{Counting, EngineFault, Outcome};
use trace_text::{Stopped, finish};

/// Why a race stopped before the end of its report, and the system's error for a read or a write that failed.
#[derive(Debug, Drop)]
pub struct Halted {
    pub fault: RaceFault,
    pub cause: Option<Error>,
}

/// Races a trace, and gives the writer back with the whole report written to it. The report goes through a buffer,
/// which is written out even if the race stops early; if that works, the writer comes back with the text written so
/// far. `ordered` is that of `race`.
pub fn race_buffered<Rt: Threads + Wait + Sync, R: Read + Drop, W: Write + Drop, G: Gate + Sync>(
    rt: &Rt,
    global: Global,
    reader: R,
    writer: W,
    gate: &G,
    ordered: bool,
) -> Result<(Outcome, W), (Halted, Option<W>)>
    ensures report { IfOk result
        (λ r. IsRaced ordered (R.remaining reader) (W.contents writer) (W.contents r.1) r.0) }
    ensures begun { IfErr result
        (λ s. IfSome s.1
        (λ w. IsRaceBegun ordered (R.remaining reader) (W.contents writer) (W.contents w))) }
{
    let Ok(writer) = BufWriter::new(global, writer) else {
        return Err((make_halted(EngineFault::NoMemory, None, false), None));
    };
    let mut source = Counting::new(reader);
    let mut sink = Counting::new(writer);
    let answer = race(rt, global, &mut source, &mut sink, gate, ordered);
    let refused = is_start(&answer);
    match finish(engine_answer(answer), source, sink) {
        Ok(done) => Ok(done),
        Err(stopped) => {
            let Stopped {
                fault,
                cause,
                writer,
            } = stopped;
            Err((make_halted(fault, cause, refused), writer))
        }
    }
}

/// Whether a thread couldn't be started.
fn is_start(answer: &Result<Outcome, RaceFault>) -> bool {
    matches!(answer, Err(RaceFault::Start))
}

/// The answer to `finish`, which knows of no threads.
fn engine_answer(answer: Result<Outcome, RaceFault>) -> Result<Outcome, EngineFault>
    ensures ok { IfOk result (λ outcome. answer ≡ Ok outcome) }
    ensures err { IsErr result → IsErr answer }
{
    match answer {
        Ok(outcome) => Ok(outcome),
        Err(RaceFault::Engine(fault)) => Err(fault),
        Err(RaceFault::Start) => Err(EngineFault::NoMemory),
    }
}

/// Why a race stopped; `refused` is whether a thread couldn't be started.
fn make_halted(fault: EngineFault, cause: Option<Error>, refused: bool) -> Halted
    ensures { result.fault ≡ (if refused then Start else Engine fault) }
{
    let fault = if refused {
        RaceFault::Start
    } else {
        RaceFault::Engine(fault)
    };
    Halted { fault, cause }
}
