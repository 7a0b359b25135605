//! Faults of a trace. The first that holds is reported, in the order of the variants, and ends the run.
ghost use Rattle.std.specs.Prelude.{Some};
ghost use Rattle.trace_text.specs.Texts.{text_of_fault};

use page_state::LayoutFault;
use std::fmt;
use trace_lines::LineFault;
use world::BootFault;

/// What is wrong with a line.
#[derive(Clone, Copy)]
pub enum Fault {
    /// Line 1,048,577.
    Lines,
    /// Its bytes, its place, or its words.
    Line(LineFault),
    /// A CPU that the world hasn't.
    Cpu,
    /// The layout was refused at `boot`.
    Layout(LayoutFault),
    /// The boot was refused.
    Boot(BootFault),
    /// The guest is Empty, the page isn't good, or no table of the tree has that word.
    Path,
}

impl fmt::Display for Fault {
    ghost output = { λ fault. Some (text_of_fault fault) };

    fn fmt<W: fmt::Write>(&self, f: &mut fmt::Formatter<W>) -> fmt::Result {
        match self {
            Fault::Lines => f.write_str("lines"),
            Fault::Line(fault) => fmt::Display::fmt(fault, f),
            Fault::Cpu => f.write_str("cpu"),
            Fault::Layout(fault) => write!(f, "layout {}", fault.number()),
            Fault::Boot(fault) => write!(f, "boot {}", fault.number()),
            Fault::Path => f.write_str("path"),
        }
    }
}
