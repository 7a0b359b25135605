//! Checking a trace with watches.
ghost use Rattle.std.specs.Prelude.{◌≡◌, IfOk, Ok, map};
ghost use Rattle.trace_watches.specs.Checked.{AddsMissed, ChecksWatched, IsWatchChecked};
ghost use Rattle.trace_watches.specs.View.{watch_in};
ghost use Rattle.trace_watches.specs.Watches.{watches_of};
ghost use Rattle.trace_reader.specs.Reading.{lines_of};

use crate::answering::answered;
use crate::listing::{Listed, WatchLine, watches};
use crate::telling::all_told;
use std::alloc::{AllocError, Allocator, Global};
use trace_check::{Checked, Watch};
use trace_reader::lines;
use trace_values::{Expansion, expand, unexpanded};

/// Expands a trace, checks what the expansion expects, and asks each watch's query behind each step. Where a name has no value, or a line
/// is like a watch and is none, its place is all that is missed. `name` is the file's, for the text, and `oracle` says when an oracle
/// looks at a replay. `alloc` is where the tables of the trees lie. Err if memory was refused.
pub fn check<A: Allocator + Copy>(
    global: Global,
    alloc: A,
    name: &str,
    trace: &[u8],
    oracle: Watch,
) -> Result<Checked, AllocError>
    ensures { IfOk result (IsWatchChecked A name.now trace.now) }
{
    match expand(global, alloc, trace)? {
        Expansion::Text(text) => check_plain(global, alloc, name, text.as_slice(), oracle),
        Expansion::Fault(spot) => unexpanded(global, name, trace, &spot),
    }
}

/// Checks a trace without names.
fn check_plain<A: Allocator + Copy>(
    global: Global,
    alloc: A,
    name: &str,
    plain: &[u8],
    oracle: Watch,
) -> Result<Checked, AllocError>
    ensures { IfOk result (ChecksWatched A name.now plain.now (watches_of (lines_of plain.now))) }
{
    let lines = lines(global, plain)?;
    match watches(global, lines.as_slice())? {
        Listed::Watches(watches) => check_listed(
            global,
            alloc,
            name,
            plain,
            oracle,
            lines.as_slice(),
            watches.as_slice(),
        ),
        Listed::Fault(spot) => unexpanded(global, name, plain, &spot),
    }
}

/// The answer to a trace with these watches, by that to it without them.
fn with_missed<A: Allocator + Copy>(
    global: Global,
    alloc: A,
    name: &str,
    own: &Checked,
    lines: &[&[u8]],
    watches: &[WatchLine<'_>],
) -> Result<Checked, AllocError>
    ensures { IfOk result
        (AddsMissed A name.now own.now (map (λ line. line.now) lines.now)
        (map watch_in watches.now)) }
{
    let missed = all_told(global, alloc, lines, watches)?;
    answered(global, name, own, watches.len(), missed.as_slice())
}

/// Checks a trace that has these watches.
fn check_listed<A: Allocator + Copy>(
    global: Global,
    alloc: A,
    name: &str,
    plain: &[u8],
    oracle: Watch,
    lines: &[&[u8]],
    watches: &[WatchLine<'_>],
) -> Result<Checked, AllocError>
    requires { map (λ line. line.now) lines.now ≡ lines_of plain.now }
    ensures { IfOk result (ChecksWatched A name.now plain.now (Ok (map watch_in watches.now))) }
{
    let own = trace_cases::check(global, alloc, name, plain, oracle)?;
    if watches.is_empty() {
        return Ok(own);
    }
    with_missed(global, alloc, name, &own, lines, watches)
}
