//! Expanding a trace: each name becomes its value, one after another.
ghost use Rattle.std.specs.Prelude.{◌≡◌, ◌<◌, IfOk, length, map};
ghost use Rattle.trace_reader.specs.Reading.{lines_of};
ghost use Rattle.trace_values.specs.Expansions.{HasValues, IsExpansion};
ghost use Rattle.trace_values.specs.Names.{name_of};
ghost use Rattle.trace_values.specs.Steps.{IsNext, PutsFirst};
ghost use Rattle.trace_values.specs.View.{expansion_in, named_in};

use crate::faults::{Spot, fault_at, quoted};
use crate::names::{Named, first_name};
use crate::putting::put_in;
use crate::twice::twice;
use crate::values::{Bound, bind};
use std::alloc::{AllocError, Allocator, Global};
use trace_reader::lines;

/// What comes of a trace with names.
#[derive(Drop)]
pub enum Expansion {
    /// The trace in which each name is its value.
    Text(Vec<u8>),
    /// The place of the first name that has none, and why.
    Fault(Spot),
}

/// What comes of the first name of a text.
#[derive(Drop)]
enum Next {
    /// It has no name.
    Plain,
    Text(Vec<u8>),
    Fault(Spot),
}

/// A text with a value for its first name.
fn put_first(
    global: Global,
    text: &[u8],
    lines: &[&[u8]],
    named: Named<'_>,
    value: Vec<u8>,
) -> Result<Next, AllocError>
    requires inside { named.offset < length named.line.now }
    requires lines { map (λ line. line.now) lines.now ≡ lines_of text.now }
    ensures { IfOk result (PutsFirst text.now (name_of (named_in named.entry)) value.items) }
{
    let new = put_in(global, text, lines, named.name(), value.as_slice())?;
    Ok(Next::Text(new))
}

/// One name of a text becomes its value.
fn next_put<A: Allocator + Copy>(global: Global, alloc: A, text: &[u8]) -> Result<Next, AllocError>
    ensures { IfOk result (IsNext A text.now) }
{
    let lines = lines(global, text)?;
    let Some(named) = first_name(lines.as_slice()) else {
        return Ok(Next::Plain);
    };
    match bind(global, alloc, lines.as_slice(), named)? {
        Bound::Fault(spot) => Ok(Next::Fault(spot)),
        Bound::Value(value) => put_first(global, text, lines.as_slice(), named, value),
    }
}

/// The trace in which each name is its value: what the expectation that has it first finds there. `alloc` is where the tables of the
/// trees lie. Err if memory was refused.
pub fn expand<A: Allocator + Copy>(
    global: Global,
    alloc: A,
    trace: &[u8],
) -> Result<Expansion, AllocError>
    ensures { IfOk result (λ e. IsExpansion A trace.now (expansion_in e)) }
{
    let lines = lines(global, trace)?;
    if let Some(named) = twice(global, lines.as_slice())? {
        let found = quoted(global, named.name())?;
        let spot = fault_at(
            global,
            named,
            b"twice",
            found.as_slice(),
            b"a name that no vm_reserve before it binds",
        )?;
        return Ok(Expansion::Fault(spot));
    }
    drop(lines);
    all_put(global, alloc, trace)
}

/// All names become their values, one after another.
fn all_put<A: Allocator + Copy>(
    global: Global,
    alloc: A,
    trace: &[u8],
) -> Result<Expansion, AllocError>
    ensures { IfOk result (λ e. HasValues A trace.now (expansion_in e)) }
{
    let mut text = Vec::from_slice(global, trace)?;
    // Each turn takes a name away, and no memory holds so many.
    for turn in 0..u64::MAX {
        let _ = turn;
        match next_put(global, alloc, text.as_slice())? {
            Next::Plain => return Ok(Expansion::Text(text)),
            Next::Fault(spot) => return Ok(Expansion::Fault(spot)),
            Next::Text(new) => text = new,
        }
    }
    Err(AllocError)
}
