//! Lines of changes.
ghost use Rattle.std.specs.Prelude.{◌≡◌, ◌++◌, OnOk, codes, length};
ghost use Rattle.std.specs.Fmt.{decimal};
ghost use Rattle.state_changes.specs.Changed.{change_line, ReportsValue};
ghost use Rattle.state_changes.specs.Together.{Adds};

use std::alloc::{AllocError, Global};

/// Adds a line: the name of the changed thing, its old value and its new value.
pub(crate) fn add_change(
    text: &mut Vec<u8>,
    name: &[u8],
    before: &[u8],
    after: &[u8],
) -> Result<(), AllocError>
    ensures { OnOk result (text.new.items ≡ text.old.items ++ change_line name.now before.now after.now) }
{
    text.extend_from_slice(b"    ")?;
    text.extend_from_slice(name)?;
    text.extend_from_slice(b": ")?;
    text.extend_from_slice(before)?;
    text.extend_from_slice(b" -> ")?;
    text.extend_from_slice(after)?;
    text.extend_from_slice(b"\n")?;
    Ok(())
}

/// The number of free frames of the shared pool.
pub(crate) fn add_count(
    text: &mut Vec<u8>,
    global: Global,
    before: &Vec<u64>,
    after: &Vec<u64>,
) -> Result<(), AllocError>
    ensures { OnOk result
        (Adds
        (ReportsValue (codes "free shared") decimal (length before.now.items)
        (length after.now.items)) text.old.items text.new.items) }
{
    add_number(text, global, before.len(), after.len())?;
    Ok(())
}

#[tactic(auto, using(crate::proofs::Together::told_same, crate::proofs::Together::told_other))]
fn add_number(
    text: &mut Vec<u8>,
    global: Global,
    before: usize,
    after: usize,
) -> Result<(), AllocError>
    ensures { OnOk result
        (Adds
        (ReportsValue (codes "free shared") decimal before after) text.old.items
        text.new.items) }
{
    if before == after {
        return Ok(());
    }
    let was = format!(in global; "{before}")?;
    let is = format!(in global; "{after}")?;
    add_change(text, b"free shared", was.as_bytes(), is.as_bytes())?;
    Ok(())
}
