//! The rows of the report: each call with each reply, and each call with each condition.
ghost use Rattle.std.specs.Prelude.{◌≡◌, ◌++◌, IfOk, OnOk, Some, map};
ghost use Rattle.trace_cover.specs.Rows.{name_of, reply_number as reply_number_by, replies as all_replies, rows as rows_by, rows_in, rows_of as rows_of_by, text_of_why};

use crate::condition::Condition;
use call_table::{CallName, Refusal};
use std::alloc::{AllocError, Global};
use std::fmt;

/// The key of a count: a call with its reply, or with its frame's condition.
#[derive(Clone, Copy)]
pub enum Row {
    /// A call that was refused for this, or made.
    Reply {
        call: CallName,
        why: Option<Refusal>,
    },
    /// A call whose frame was in a condition before it.
    Cell {
        call: CallName,
        condition: Condition,
    },
}

/// The replies, in the order of the report: made, and each refusal.
pub(crate) fn replies() -> &'static [Option<Refusal>]
    ensures { result.now ≡ all_replies }
{
    &[
        None,
        Some(Refusal::Invalid),
        Some(Refusal::NoVm),
        Some(Refusal::Busy),
        Some(Refusal::Perm),
        Some(Refusal::NoPool),
        Some(Refusal::LogFull),
        Some(Refusal::NoMemory),
        Some(Refusal::Contended),
    ]
}

/// The place of a reply among them, from 1 on.
pub(crate) fn reply_number(why: Option<Refusal>) -> u64
    ensures { result ≡ reply_number_by why }
{
    match why {
        None => 1,
        Some(Refusal::Invalid) => 2,
        Some(Refusal::NoVm) => 3,
        Some(Refusal::Busy) => 4,
        Some(Refusal::Perm) => 5,
        Some(Refusal::NoPool) => 6,
        Some(Refusal::LogFull) => 7,
        Some(Refusal::NoMemory) => 8,
        Some(Refusal::Contended) => 9,
    }
}

/// All rows, by calls in the order of their table.
pub(crate) fn rows(global: Global) -> Result<Vec<Row>, AllocError>
    ensures { IfOk result (λ rows. rows.items ≡ rows_by) }
{
    let mut rows = Vec::new(global);
    add_rows(&mut rows, CallName::all())?;
    Ok(rows)
}

fn add_rows(rows: &mut Vec<Row>, calls: &[CallName]) -> Result<(), AllocError>
    ensures { OnOk result (rows.new.items ≡ rows.old.items ++ rows_in calls.now) }
{
    for call in calls {
        add_rows_of(rows, *call)?;
    }
    Ok(())
}

fn add_rows_of(rows: &mut Vec<Row>, call: CallName) -> Result<(), AllocError>
    ensures { OnOk result (rows.new.items ≡ rows.old.items ++ rows_of_by call) }
{
    add_replies(rows, call, replies())?;
    add_cells(rows, call, Condition::all())
}

fn add_replies(
    rows: &mut Vec<Row>,
    call: CallName,
    replies: &[Option<Refusal>],
) -> Result<(), AllocError>
    ensures { OnOk result (rows.new.items ≡ rows.old.items ++ map (Row.Reply call) replies.now) }
{
    for why in replies {
        rows.push(Row::Reply { call, why: *why })?;
    }
    Ok(())
}

fn add_cells(
    rows: &mut Vec<Row>,
    call: CallName,
    conditions: &[Condition],
) -> Result<(), AllocError>
    ensures { OnOk result (rows.new.items ≡ rows.old.items ++ map (Row.Cell call) conditions.now) }
{
    for condition in conditions {
        rows.push(Row::Cell {
            call,
            condition: *condition,
        })?;
    }
    Ok(())
}

/// The word of a reply, as a report of `replay` has it, without a value.
fn word_of(why: Option<Refusal>) -> &'static str
    ensures { result.now ≡ text_of_why why }
{
    match why {
        None => "ok",
        Some(Refusal::Invalid) => "invalid",
        Some(Refusal::NoVm) => "novm",
        Some(Refusal::Busy) => "busy",
        Some(Refusal::Perm) => "perm",
        Some(Refusal::NoPool) => "nopool",
        Some(Refusal::LogFull) => "logfull",
        Some(Refusal::NoMemory) => "nomemory",
        Some(Refusal::Contended) => "contended",
    }
}

impl fmt::Display for Row {
    ghost output = { λ row. Some (name_of row) };

    fn fmt<W: fmt::Write>(&self, f: &mut fmt::Formatter<W>) -> fmt::Result {
        match self {
            Row::Reply { call, why } => {
                let call = call.row().word;
                let why = word_of(*why);
                write!(f, "{call} {why}")
            }
            Row::Cell { call, condition } => {
                let call = call.row().word;
                let condition = condition.words();
                write!(f, "{call}: {condition}")
            }
        }
    }
}
