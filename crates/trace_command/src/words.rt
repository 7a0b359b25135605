//! The words of the program.
ghost use Rattle.std.specs.Prelude.{◌≡◌, map};
ghost use Rattle.trace_command.specs.Asked.{IsRead, StandsFor, Takes};
ghost use Rattle.trace_command.specs.declared.words.UsageFault.TheVariants.{NoMemory};

use crate::asked::{Unread, asked};
use crate::forms::{form, refusal};
use clap::Error;
use clap::error::ErrorKind;
use std::alloc::{AllocError, Global};

/// When the oracle looks at what a trace's steps have done.
#[derive(Clone, Copy, PartialEq)]
pub enum Looks {
    /// After each step.
    Each,
    /// Once, after the last line.
    End,
}

/// How a report is written.
#[derive(Clone, Copy, PartialEq)]
pub enum Output {
    /// As text.
    Report,
    /// As JSON, an object for each line.
    Json,
    /// No output: the exit status is the answer.
    Nothing,
}

/// What the program is to do. A file is a path, or `-` for standard input.
#[derive(Drop)]
pub enum Invocation<'a> {
    /// Run the steps of a trace in order.
    Replay {
        file: &'a str,
        /// The size in bytes of the heap in which the trees' tables lie; without one they lie in the machine's memory.
        heap: Option<usize>,
        looks: Looks,
        output: Output,
    },
    /// Run the steps of a trace, those after `start` on one thread for each CPU.
    Race {
        file: &'a str,
        /// Whether the report has the order in which the steps after `start` took effect.
        ordered: bool,
        output: Output,
    },
    /// Run the steps of a trace, set the words that it pokes, and audit once.
    Audit {
        file: &'a str,
        /// Whether it is also said why the state that the words say isn't legal.
        legal: bool,
        output: Output,
    },
    /// Find all that the steps after `start` may reply, in any order of the CPUs.
    Outcomes {
        file: &'a str,
        /// The most points of a step that the search may come to.
        limit: u64,
        /// A report of which it is asked whether some order gives its replies.
        observed: Option<&'a str>,
        output: Output,
    },
    /// Compare what the lines of traces report with what their comments expect.
    Check {
        files: Vec<&'a str>,
        looks: Looks,
        output: Output,
    },
    /// Count the replies and conditions that traces have reached.
    Cover {
        files: Vec<&'a str>,
        /// Whether only rows that never came are written.
        missing: bool,
        /// Whether to write nothing: the exit status is the answer.
        quiet: bool,
    },
    /// Write a trace with what its lines report as expectations.
    Record {
        file: &'a str,
    },
    /// Write a trace with values in place of its names.
    Expand {
        file: &'a str,
    },
    /// Show a trace line by line, with what each step looked at and changed.
    Explain {
        file: &'a str,
        /// The one line to show, counted from 1; without it all are shown.
        line: Option<u64>,
        output: Output,
    },
    /// Make a trace.
    Generate {
        seed: u64,
        steps: u64,
        cpus: u64,
        pages: u64,
        /// The width of input addresses in bits.
        geometry: u64,
        /// The number of calls to be refused, of a hundred.
        hostile: u64,
    },
    /// Find who owns what in an image of memory, and what isn't sound.
    Dump(Dump<'a>),
    /// Draw who owns what.
    Draw {
        file: &'a str,
        /// Whether the state at the end is written as text in place of a picture.
        text: bool,
    },
}

/// An image of memory, and the facts known of it, in the given words.
#[derive(Drop)]
pub struct Dump<'a> {
    /// The path of the image.
    pub image: &'a str,
    /// The roots of the host's tree and of the hypervisor's.
    pub host: &'a str,
    pub hyp: &'a str,
    /// The roots of guests.
    pub guests: Vec<&'a str>,
    /// The profiles of trees.
    pub profiles: Vec<&'a str>,
    /// The pages of trees that are left out.
    pub skips: Vec<&'a str>,
    /// The physical address of a raw image's first byte; without it the image is an ELF core.
    pub base: Option<u64>,
    /// The hypervisor's page from which on it maps a record for each frame.
    pub vmemmap: Option<u64>,
    /// Whether a picture is written in place of lines.
    pub draw: bool,
    pub output: Output,
}

/// Why the words were refused.
#[derive(Debug, Drop, thiserror::Error)]
pub enum UsageFault {
    /// (1) The words are no command, ask for help or the version, or a value isn't of its form; the text to show.
    #[error(transparent)]
    Usage(Error),
    /// (2)
    #[error("out of memory")]
    NoMemory,
}

impl From<AllocError> for UsageFault {
    ghost from_gives = { λ _ fault. fault ≡ NoMemory };

    fn from(_error: AllocError) -> UsageFault {
        UsageFault::NoMemory
    }
}

/// The fault for an error of clap's.
fn fault_of(error: Error) -> UsageFault
    ensures { StandsFor error result }
{
    match error.kind() {
        ErrorKind::OutOfMemory => UsageFault::NoMemory,
        _ => UsageFault::Usage(error),
    }
}

/// Reads the words, the program's name first.
pub fn command<'a>(global: Global, words: &'a [String]) -> Result<Invocation<'a>, UsageFault>
    ensures read { IsRead (map (λ w. w.bytes.items) words.entry.now) result }
    ensures takes { Takes (map (λ w. w.bytes.items) words.entry.now) result }
{
    read(global, words)
}

fn read<'a>(global: Global, words: &'a [String]) -> Result<Invocation<'a>, UsageFault>
    ensures { IsRead (map (λ w. w.bytes.items) words.entry.now) result }
{
    let matches = match form(global)?.try_get_matches_from(words) {
        Ok(matches) => matches,
        Err(error) => return Err(fault_of(error)),
    };
    match asked(global, &matches) {
        Ok(invocation) => Ok(invocation),
        Err(Unread::NoMemory) => Err(UsageFault::NoMemory),
        Err(Unread::Word(wanted)) => Err(UsageFault::Usage(refusal(global, wanted)?)),
    }
}
