//! Making a trace.
ghost use Rattle.std.specs.Prelude.{◌≡◌, string_bytes};
ghost use Rattle.trace_cli.specs.Status.{IsAnswerPut, IsMade, IsPut, status_written};

use crate::telling::{FAILED, REFUSED};
use std::io::{self, Write};
use trace_generate::{GenerateFault, Options, generate};
use trace_reader::Progress;

/// Writes the trace of these options, and gives the exit status.
pub fn made<R: AllocGlobal + Eprint, W: Write, P: Progress>(
    rt: &R,
    writer: &mut W,
    seed: u64,
    steps: u64,
    options: &Options,
    progress: &P,
) -> u8
    ensures { IsMade steps options.now (W.contents writer.old) (W.contents writer.new) result }
{
    let answer = generate(rt.alloc(), seed, steps, options, progress);
    progress.finish();
    written(rt, writer, answer)
}

/// Writes a trace that was made, or says why none was, and returns the exit status.
fn written<R: Eprint, W: Write>(rt: &R, writer: &mut W, answer: Result<String, GenerateFault>) -> u8
    ensures { IsAnswerPut string_bytes answer (W.contents writer.old) (W.contents writer.new) result }
{
    match answer {
        Ok(text) => put(rt, writer, text.as_bytes()),
        Err(GenerateFault::NoMemory) => {
            let _ = eprintln!(rt; "./run: out of memory");
            FAILED
        }
        Err(fault) => {
            let _ = eprintln!(rt; "./run: {fault}");
            REFUSED
        }
    }
}

/// Writes a trace, and gives the exit status.
fn put<R: Eprint, W: Write>(rt: &R, writer: &mut W, text: &[u8]) -> u8
    ensures { IsPut text.now (W.contents writer.old) (W.contents writer.new) result }
{
    let outcome = writer.write_all(text);
    told(rt, outcome)
}

/// Writes to standard error that a write failed, if it did, and gives the exit status.
fn told<R: Eprint>(rt: &R, outcome: io::Result<()>) -> u8
    ensures { result ≡ status_written outcome }
{
    match outcome {
        Ok(()) => 0,
        Err(error) => {
            let _ = eprintln!(rt; "./run: standard output: {error}");
            FAILED
        }
    }
}
