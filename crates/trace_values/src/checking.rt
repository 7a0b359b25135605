//! Checking what a trace with names expects, and filling it in.
ghost use Rattle.std.specs.Prelude.{◌≡◌, ◌++◌, IfOk, OnOk};
ghost use Rattle.trace_check.specs.Checks.{sum_text};
ghost use Rattle.trace_values.specs.Checked.{IsUnexpanded, IsValueChecked, IsValueRecord};
ghost use Rattle.trace_values.specs.View.{expansion_in, spot_in};

use crate::expanding::{Expansion, expand};
use crate::faults::{Spot, add_spot};
use std::alloc::{AllocError, Allocator, Global};
use trace_check::{Checked, Watch, count_expected};
use trace_faults::add_file_line;
use trace_reader::lines;

/// Expands a trace, and checks what the expansion expects. Where a name has no value, its place is all that is missed. `name` is the
/// file's, for the text, and `watch` says when an oracle looks at a replay. `alloc` is where the tables of the trees lie. Err where
/// memory was refused.
pub fn check<A: Allocator + Copy>(
    global: Global,
    alloc: A,
    name: &str,
    trace: &[u8],
    watch: Watch,
) -> Result<Checked, AllocError>
    ensures { IfOk result (IsValueChecked A name.now trace.now) }
{
    match expand(global, alloc, trace)? {
        Expansion::Text(text) => trace_cases::check(global, alloc, name, text.as_slice(), watch),
        Expansion::Fault(spot) => unexpanded(global, name, trace, &spot),
    }
}

/// The expansion of a trace with its expectations filled in. `alloc` is where the tables of the trees lie. Err if memory was refused.
pub fn record<A: Allocator + Copy>(
    global: Global,
    alloc: A,
    trace: &[u8],
) -> Result<Expansion, AllocError>
    ensures { IfOk result (λ r. IsValueRecord A trace.now (expansion_in r)) }
{
    match expand(global, alloc, trace)? {
        Expansion::Text(text) => {
            let recorded = trace_cases::record(global, alloc, text.as_slice())?;
            Ok(Expansion::Text(recorded))
        }
        Expansion::Fault(spot) => Ok(Expansion::Fault(spot)),
    }
}

/// The check of a trace of which a name has a fault: its place.
pub fn unexpanded(
    global: Global,
    name: &str,
    trace: &[u8],
    spot: &Spot,
) -> Result<Checked, AllocError>
    ensures { IfOk result (IsUnexpanded name.now trace.now (spot_in spot.now)) }
{
    let lines = lines(global, trace)?;
    let mut text = Vec::new(global);
    add_spot(&mut text, global, name, spot)?;
    let expected = count_expected(lines.as_slice());
    add_sum(&mut text, global, name, expected, 1)?;
    Ok(Checked {
        text,
        expected: expected as u64,
        wrong: 1,
        clean: false,
    })
}

/// The line of what is expected and wrong.
fn add_sum(
    text: &mut Vec<u8>,
    global: Global,
    name: &str,
    expected: usize,
    wrong: usize,
) -> Result<(), AllocError>
    ensures { OnOk result (text.new.items ≡ text.old.items ++ sum_text name.now expected wrong) }
{
    let said = format!(in global; "{expected} expected, {wrong} wrong")?;
    add_file_line(text, name, said.as_bytes())
}
