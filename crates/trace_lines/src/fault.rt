//! Faults of a line by itself. The first that holds is reported, in the order of the variants.
ghost use Rattle.std.specs.Prelude.{Some};
ghost use Rattle.trace_lines.specs.Texts.{text_of_line_fault};

use std::fmt;

/// The fault of a line: in its bytes, its place, or its words.
#[derive(Clone, Copy, PartialEq, Debug)]
pub enum LineFault {
    /// Over 256 bytes before the line's end.
    Long,
    /// A byte outside 0x20 to 0x7e.
    Byte,
    /// A space first, last, or twice in a row.
    Space,
    /// The first word is unknown, or the call, tree or pool after it is unknown or missing.
    Word,
    /// The line is where it isn't allowed, or `boot` without a carve-out.
    Place,
    /// Too few or too many words.
    Count,
    /// A word not of the form that its place asks.
    Form,
}

impl fmt::Display for LineFault {
    ghost output = { λ fault. Some (text_of_line_fault fault) };

    fn fmt<W: fmt::Write>(&self, f: &mut fmt::Formatter<W>) -> fmt::Result {
        let word = match self {
            LineFault::Long => "long",
            LineFault::Byte => "byte",
            LineFault::Space => "space",
            LineFault::Word => "word",
            LineFault::Place => "place",
            LineFault::Count => "count",
            LineFault::Form => "form",
        };
        f.write_str(word)
    }
}
