//! The fault of a name, and its place.
ghost use Rattle.std.specs.Prelude.{◌≡◌, ◌<◌, ◌++◌, IfOk, OnOk, length};
ghost use Rattle.trace_faults.specs.Spots.{spot_line, word_text};
ghost use Rattle.trace_values.specs.Expansions.{fault_at as fault_at_by};
ghost use Rattle.trace_values.specs.View.{named_in, spot_in};

use crate::names::Named;
use std::alloc::{AllocError, Global};

/// Where the fault of a name is, and what it is.
#[derive(Drop)]
pub struct Spot {
    /// The number of its line, from 1.
    pub line: u64,
    /// Its column in bytes, from 1.
    pub column: u64,
    /// `fault FAULT: found .., wanted ..`.
    pub said: Vec<u8>,
}

/// Adds the line for a spot to a text: `NAME:LINE:COLUMN: fault FAULT: ..`.
pub fn add_spot(
    text: &mut Vec<u8>,
    global: Global,
    name: &str,
    spot: &Spot,
) -> Result<(), AllocError>
    ensures { OnOk result (text.new.items ≡ text.old.items ++ spot_line name.now (spot_in spot.now)) }
{
    let line = spot.line;
    let column = spot.column;
    let place = format!(in global; ":{line}:{column}: ")?;
    text.extend_from_slice(name.as_bytes())?;
    text.extend_from_slice(place.as_bytes())?;
    text.extend_from_slice(spot.said.as_slice())?;
    text.extend_from_slice(b"\n")?;
    Ok(())
}

/// A text between two backquotes.
pub(crate) fn quoted(global: Global, text: &[u8]) -> Result<Vec<u8>, AllocError>
    ensures { IfOk result (λ said. said.items ≡ word_text text.now) }
{
    let mut said = Vec::from_slice(global, b"`")?;
    said.extend_from_slice(text)?;
    said.extend_from_slice(b"`")?;
    Ok(said)
}

/// A fault at a name.
pub(crate) fn fault_at(
    global: Global,
    named: Named<'_>,
    fault: &[u8],
    found: &[u8],
    wanted: &[u8],
) -> Result<Spot, AllocError>
    requires { named.offset < length named.line.now }
    ensures { IfOk result
        (λ spot. spot_in spot
        ≡ fault_at_by (named_in named.entry) fault.now found.now wanted.now) }
{
    let mut said = Vec::from_slice(global, b"fault ")?;
    said.extend_from_slice(fault)?;
    said.extend_from_slice(b": found ")?;
    said.extend_from_slice(found)?;
    said.extend_from_slice(b", wanted ")?;
    said.extend_from_slice(wanted)?;
    Ok(Spot {
        line: named.number as u64,
        column: named.offset as u64 + 1,
        said,
    })
}
