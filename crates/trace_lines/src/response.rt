//! What the lines of a trace report.
ghost use Rattle.std.specs.Prelude.{Some};
ghost use Rattle.trace_lines.specs.Texts.{digits_16, text_of_response};

use call_table::Reply;
use page_state::{Entry, Run};
use std::fmt;

/// A line of the report that a line of the trace makes, without its end.
#[derive(Clone, Copy)]
pub enum Response {
    /// The tables of each tree and the free frames of the shared pool after boot.
    Boot {
        host: usize,
        hyp: usize,
        free: usize,
    },
    /// The reply to the step on a line, counted from 1.
    Step {
        line: u64,
        cpu: u64,
        reply: Reply,
    },
    /// A word of a table.
    Word(u64),
    /// The number of free frames.
    Free(usize),
    /// A run of a tree's maplets.
    Run(Run),
}

impl fmt::Display for Response {
    ghost output = { λ response. Some (text_of_response response) };

    fn fmt<W: fmt::Write>(&self, f: &mut fmt::Formatter<W>) -> fmt::Result {
        match self {
            Response::Boot { host, hyp, free } => {
                write!(f, "boot host {host} hyp {hyp} free {free}")
            }
            Response::Step { line, cpu, reply } => write!(f, "{line} {cpu} {reply}"),
            Response::Word(word) => write!(f, "word 0x{}", Digits(*word)),
            Response::Free(free) => write!(f, "free {free}"),
            Response::Run(run) => {
                let Run { pages, target } = *run;
                let entry = Entry::from(target);
                write!(f, "run 0x{:x} {} {entry}", pages.first.0, pages.count)
            }
        }
    }
}

/// A word as 16 hexadecimal digits.
#[derive(Clone, Copy)]
struct Digits(u64);

impl fmt::Display for Digits {
    ghost output = { λ word. Some (digits_16 word.0) };

    fn fmt<W: fmt::Write>(&self, f: &mut fmt::Formatter<W>) -> fmt::Result {
        write!(f, "{:016x}", self.0)
    }
}
