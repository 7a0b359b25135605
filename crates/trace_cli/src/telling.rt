//! Text that is in no report, and goes to standard error.
ghost use Rattle.std.specs.Prelude.{◌≡◌};
ghost use Rattle.trace_cli.specs.Status.{IsRefused, place_in, status_of_end};

use clap::error::ErrorKind;
use std::io;
use std::str::from_utf8;
use trace_command::UsageFault;
use trace_faults::text_beside;
use trace_race::{Halted, RaceFault};
use trace_reader::{EngineFault, Outcome, exit_status};
use trace_text::Fault;

/// The status if the words are refused or a file can't be opened.
pub const REFUSED: u8 = 2;

/// The status of a fault that is in no report.
pub const FAILED: u8 = 1;

/// Writes to standard error why the words were refused, and gives the exit status. The version goes to standard output.
pub fn refused<R: Print + Eprint>(rt: &R, fault: UsageFault) -> u8
    ensures { IsRefused fault result }
{
    match fault {
        UsageFault::Usage(error) => {
            if error.kind() == ErrorKind::DisplayVersion {
                return match rt.print(error) {
                    Ok(()) => 0,
                    Err(_) => FAILED,
                };
            }
            let _ = rt.eprint(error);
            REFUSED
        }
        UsageFault::NoMemory => {
            let _ = eprintln!(rt; "./run: out of memory");
            FAILED
        }
    }
}

/// Writes to standard error that a file can't be opened, and gives the exit status.
pub fn unopened<R: Eprint>(rt: &R, path: &str, error: io::Error) -> u8
    ensures { result ≡ 2 }
{
    let _ = eprintln!(rt; "./run: {path}: {error}");
    REFUSED
}

/// Writes to standard error why there is no whole report, if there is none, and gives the exit status.
pub fn told<R: Eprint>(rt: &R, path: &str, answer: Result<Outcome, Halted>) -> u8
    ensures { result ≡ status_of_end answer }
{
    let outcome = match answer {
        Ok(outcome) => outcome,
        Err(halted) => {
            tell(rt, path, &halted);
            return FAILED;
        }
    };
    exit_status(Ok(outcome))
}

/// Writes to standard error why there is no whole report.
pub fn tell<R: Eprint>(rt: &R, path: &str, halted: &Halted) {
    let _ = match halted.fault {
        RaceFault::Start => eprintln!(rt; "./run: {path}: a thread could not be started"),
        RaceFault::Engine(fault) => {
            let place = place_of(fault, path);
            match &halted.cause {
                Some(cause) => eprintln!(rt; "./run: {place}: {cause}"),
                None => eprintln!(rt; "./run: {place}: {fault}"),
            }
        }
    };
}

/// The file that a fault is blamed on: standard output for a write, else the trace's.
fn place_of<'a>(fault: EngineFault, path: &'a str) -> &'a str
    ensures { result.now ≡ place_in fault path.entry.now }
{
    match fault {
        EngineFault::Write => "standard output",
        EngineFault::Read | EngineFault::NoMemory => path,
    }
}

/// Writes to standard error the text beside the report of a trace, if there is any: where its fault is, or why it makes
/// no step, or no race. Err if memory was refused.
pub fn report_beside<R: AllocGlobal + Eprint>(
    rt: &R,
    path: &str,
    trace: &[u8],
    fault: Option<(u64, Fault)>,
    races: bool,
) -> Result<(), Halted> {
    let Ok(text) = text_beside(rt.alloc(), path, trace, fault, races) else {
        return Err(no_memory());
    };
    if let Ok(said) = from_utf8(text.as_slice()) {
        let _ = eprint!(rt; "{said}");
    }
    Ok(())
}

/// The end of a run whose memory was refused.
pub fn no_memory() -> Halted {
    Halted {
        fault: RaceFault::Engine(EngineFault::NoMemory),
        cause: None,
    }
}
