//! The number of steps counted in each row.
ghost use Rattle.std.specs.Prelude.{◌≡◌, ◌==◌, ◌&&◌, IfOk, count_by, map};
ghost use Rattle.call_table.specs.Rows.{row as row_in};
ghost use Rattle.trace_cover.specs.Counted.{count as count_by_rows, counted as counted_by, is_in as is_in_by, is_of_call as is_of_call_by, meets as meets_by};

use crate::condition::Condition;
use crate::rows::{Row, reply_number};
use crate::steps::Seen;
use call_table::CallName;
use std::alloc::{AllocError, Global};

/// A row, and the number of steps counted in it.
#[derive(Clone, Copy)]
pub(crate) struct Counted {
    pub(crate) row: Row,
    pub(crate) count: usize,
}

fn is_of_call(call: CallName, other: CallName) -> bool
    ensures { result ≡ is_of_call_by call other }
{
    call.row().number == other.row().number
}

fn is_in(condition: Condition, seen: Option<Condition>) -> bool
    ensures { result ≡ is_in_by condition seen }
{
    match seen {
        Some(seen) => condition.number() == seen.number(),
        None => false,
    }
}

/// Whether a step is counted in a row.
fn meets(row: Row, seen: Seen) -> bool
    ensures { result ≡ meets_by row seen }
{
    match row {
        Row::Reply { call, why } => is_of_call(call, seen.call)
            && reply_number(why) == reply_number(seen.why),
        Row::Cell { call, condition } => is_of_call(call, seen.call)
            && is_in(condition, seen.condition),
    }
}

/// The number of these steps that are counted in a row.
fn count(row: Row, seen: &[Seen]) -> usize
    ensures { result ≡ count_by_rows row seen.now }
{
    seen.iter().filter(|step| meets(row, **step)).count()
}

/// Rows, each with the number of steps counted in it.
pub(crate) fn with_counts(
    global: Global,
    rows: &[Row],
    seen: &[Seen],
) -> Result<Vec<Counted>, AllocError>
    ensures { IfOk result (λ all. all.items ≡ counted_by seen.now rows.now) }
{
    let mut all = Vec::new(global);
    for row in rows {
        all.push(Counted {
            row: *row,
            count: count(*row, seen),
        })?;
    }
    Ok(all)
}
