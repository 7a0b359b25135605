//! Runs traces of hypercalls on a model of protected KVM's page ownership.
//!
//! `trace_cli replay FILE [--heap BYTES]` carries the lines of FILE out in order and writes the report to standard
//! output. The tables of the trees lie in a heap of BYTES (4,096 to 1,073,741,824), or in the machine's memory.
//! `trace_cli race FILE` makes the steps after `start` on one thread for each CPU, and `trace_cli outcomes FILE` finds
//! all replies that they may get; `trace_cli audit FILE` sets words and audits once. `trace_cli check FILE..` compares
//! what lines report with what comments after them expect, `cover FILE..` counts what traces have tried, `explain FILE`
//! shows what each step looked at, `generate SEED STEPS` makes a trace, and `draw FILE` a picture of who owns what;
//! `dump IMAGE` reports who owns what in an image of memory. With `--json` a report's lines are JSON. docs/TRACES.md
//! explains the lines of a trace, its reports and each fault, and docs/JSON.md the JSON.
//!
//! The exit status:
//!
//! - 0: the report ends without a fault or a disagreement; a check has no miss; nothing is missing; or the version was asked for.
//! - 1: the report has a fault or a disagreement, a check a miss, or something is missing; or reading, writing, memory or the start
//!   of a thread failed, which one line on standard error says.
//! - 2: FILE can't be opened, `cover` met a fault, the words are refused, or help was asked for. The reason, or help, is on standard
//!   error, but a fault of a trace in the report.
//!
//! `trace_command` parses the command line, and each subcommand has a library crate that does its work. This crate
//! opens files, and writes to standard error all that is in no report.
#![tactic(auto)]

ghost use Rattle.std.specs.Prelude.{IfOk, map};
ghost use Rattle.trace_cli.specs.Status.{HasAskedStatus, HasChecked, HasFileStatus, HasGreatestStatus, HasOrderStatus, HasSomeStatus, HasWordsStatus};
ghost use Rattle.trace_command.specs.Asked.{asking_of};

mod covering;
mod dumping;
mod expansions;
mod files;
mod generated;
mod kept;
mod progress;
mod reports;
mod telling;
mod texts;

use covering::covered;
use dumping::dumped;
use expansions::{expanded, recorded};
use files::{HostFiles, Opens, OpensImage, ShowsWork};
use generated::made;
use memory_image::ImageBytes;
use reports::{audited, raced, replayed};
use std::io::IsTerminal;
use std::process::ExitCode;
use std::rt::Env;
use std::sync::Wait;
use std::thread::Threads;
use std::{env, io};
use telling::{FAILED, refused, told, unopened};
use texts::{checked, drawn, explained, order_reported, outcomes_reported};
use trace_command::{Invocation, Looks, Output, command};
use trace_generate::Options;
use trace_reader::Progress;

/// Runs the program, and gives the exit status.
fn run<
    R: AllocGlobal + Env + Print + Eprint + Threads + Wait + Sync,
    F: io::Read + Drop,
    I: ImageBytes + Drop,
    P: Progress + Drop,
    O: Opens<F> + OpensImage<I> + ShowsWork<P>,
>(rt: &R, files: &O) -> Result<u8, io::Error>
    ensures { IfOk result
        (HasSomeStatus F.remaining (O.opens files.now) I.bytes I.may_fail
        (O.opens_image files.now)) }
{
    let words: Vec<String> = env::args(rt)?.collect(rt.alloc())?;
    Ok(done_by_words(rt, files, words.as_slice()))
}

/// Does what the words ask for, the program's name first, and gives the exit status.
fn done_by_words<
    R: AllocGlobal + Print + Eprint + Threads + Wait + Sync,
    F: io::Read + Drop,
    I: ImageBytes + Drop,
    P: Progress + Drop,
    O: Opens<F> + OpensImage<I> + ShowsWork<P>,
>(rt: &R, files: &O, words: &[String]) -> u8
    ensures { HasWordsStatus F.remaining (O.opens files.now) I.bytes I.may_fail
        (O.opens_image files.now)
        (map (λ w. w.bytes.items) words.now) result }
{
    match command(rt.alloc(), words) {
        Ok(asked) => done(rt, files, asked),
        Err(fault) => refused(rt, fault),
    }
}

/// Does what the command line asks, and gives the exit status.
fn done<
    R: AllocGlobal + Print + Eprint + Threads + Wait + Sync,
    F: io::Read + Drop,
    I: ImageBytes + Drop,
    P: Progress + Drop,
    O: Opens<F> + OpensImage<I> + ShowsWork<P>,
>(rt: &R, files: &O, asked: Invocation<'_>) -> u8
    ensures { HasAskedStatus F.remaining (O.opens files.now) I.bytes I.may_fail
        (O.opens_image files.now)
        (asking_of asked.entry) result }
{
    match asked {
        Invocation::Replay {
            file,
            heap,
            looks,
            output,
        } => match files.open(file, shows(output)) {
            Ok(opened) => told(rt, file, replayed(rt, file, heap, looks, output, opened)),
            Err(error) => unopened(rt, file, error),
        },
        Invocation::Race {
            file,
            ordered,
            output,
        } => match files.open(file, shows(output)) {
            Ok(opened) => told(rt, file, raced(rt, file, ordered, output, opened)),
            Err(error) => unopened(rt, file, error),
        },
        Invocation::Audit {
            file,
            legal,
            output,
        } => match files.open(file, shows(output)) {
            Ok(opened) => told(rt, file, audited(rt, file, legal, output, opened)),
            Err(error) => unopened(rt, file, error),
        },
        Invocation::Outcomes {
            file,
            limit,
            observed: None,
            output,
        } => match files.open(file, false) {
            Ok(opened) => {
                let progress = files.progress("points", shows(output));
                let answer = outcomes_reported(rt, file, limit, output, opened, &progress);
                told(rt, file, answer)
            }
            Err(error) => unopened(rt, file, error),
        },
        Invocation::Outcomes {
            file,
            limit,
            observed: Some(report),
            output,
        } => ordered_as(rt, files, file, report, limit, output),
        Invocation::Check {
            files: paths,
            looks,
            output,
        } => checked_each(rt, files, paths.as_slice(), looks, output),
        Invocation::Cover {
            files: paths,
            missing,
            quiet,
        } => covered(rt, files, paths.as_slice(), missing, quiet),
        Invocation::Record { file } => match files.open(file, false) {
            Ok(opened) => told(rt, file, recorded(rt, file, opened)),
            Err(error) => unopened(rt, file, error),
        },
        Invocation::Expand { file } => match files.open(file, false) {
            Ok(opened) => told(rt, file, expanded(rt, file, opened)),
            Err(error) => unopened(rt, file, error),
        },
        Invocation::Explain { file, line, output } => match files.open(file, false) {
            Ok(opened) => told(rt, file, explained(rt, file, line, output, opened)),
            Err(error) => unopened(rt, file, error),
        },
        Invocation::Generate {
            seed,
            steps,
            cpus,
            pages,
            geometry,
            hostile,
        } => made(
            rt,
            &mut io::writer(rt),
            seed,
            steps,
            &Options {
                cpus,
                pages,
                geometry,
                hostile,
            },
            &files.progress("calls", true),
        ),
        Invocation::Draw { file, text } => match files.open(file, false) {
            Ok(opened) => told(rt, file, drawn(rt, file, text, opened)),
            Err(error) => unopened(rt, file, error),
        },
        Invocation::Dump(dump) => dumped(rt, files, dump),
    }
}

/// Whether a report is written, so that the progress of its lines may be shown.
fn shows(output: Output) -> bool {
    output != Output::Nothing
}

/// Checks each of these traces, and gives the greatest status.
fn checked_each<R: AllocGlobal + Print + Eprint, F: io::Read + Drop, O: Opens<F>>(
    rt: &R,
    files: &O,
    paths: &[&str],
    looks: Looks,
    output: Output,
) -> u8
    ensures { HasGreatestStatus F.remaining (O.opens files.now)
        (map (λ path. path.now) paths.now) result }
{
    let mut status = 0;
    for path in paths {
        status = check_status(rt, files, path, looks, output).max(status);
    }
    status
}

/// Checks the trace at a path, and gives the exit status.
fn check_status<R: AllocGlobal + Print + Eprint, F: io::Read + Drop, O: Opens<F>>(
    rt: &R,
    files: &O,
    path: &str,
    looks: Looks,
    output: Output,
) -> u8
    ensures { HasFileStatus F.remaining (O.opens files.now) (HasChecked path.now) path.now result }
{
    match files.open(path, false) {
        Ok(file) => told(rt, path, checked(rt, path, looks, output, file)),
        Err(error) => unopened(rt, path, error),
    }
}

/// Writes whether some order of steps gives the replies of the report at a path, and returns the exit status.
fn ordered_as<
    R: AllocGlobal + Print + Eprint,
    F: io::Read + Drop,
    P: Progress + Drop,
    O: Opens<F> + ShowsWork<P>,
>(rt: &R, files: &O, path: &str, report: &str, limit: u64, output: Output) -> u8
    ensures { HasOrderStatus F.remaining (O.opens files.now) path.now report.now limit result }
{
    let file = match files.open(path, false) {
        Ok(file) => file,
        Err(error) => return unopened(rt, path, error),
    };
    match files.open(report, false) {
        Ok(observed) => {
            let progress = files.progress("points", shows(output));
            let answer = order_reported(rt, path, report, limit, output, file, observed, &progress);
            told(rt, path, answer)
        }
        Err(error) => {
            drop(file);
            unopened(rt, report, error)
        }
    }
}

fn main(rt: HostRuntime) -> ExitCode {
    let shows = rt.stderr().is_terminal();
    match run(&rt, &HostFiles { rt: &rt, shows }) {
        Ok(status) => ExitCode::from(status),
        Err(error) => {
            let _ = eprintln!(rt; "./run: {error}");
            ExitCode::from(FAILED)
        }
    }
}
