//! Replies.
ghost use Rattle.std.specs.Prelude.{◌≡◌, Some};
ghost use Rattle.c_words.specs.Said.{reply_from_c, value_from_c};
ghost use Rattle.c_words.specs.Written.{reply_written, value_written};

use crate::numbers::{refusal_number, refusal_of};
use crate::owner::{PlainOwner, owner_to_c, row_of};
use crate::word::{BLANK, PlainWord, entry_of, entry_to_c};
use call_table::{Reply, Value, VmId};
use descriptor::Frame;

/// The answer of a call. Fields that have no part in its value are written as 0, and aren't read.
#[repr(C)]
#[derive(Clone, Copy, PartialEq)]
pub struct PlainReply {
    /// 0 if the call was made, else the refusal's number without its sign.
    pub refusal: u64,
    /// Of a call that was made: 0 no value, 1 a VM, 2 a frame, 3 an entry, 4 an owner row.
    pub gives: u64,
    /// Of a VM: its slot.
    pub slot: u64,
    /// Of a VM: its generation.
    pub generation: u64,
    /// The frame.
    pub frame: u64,
    /// The entry.
    pub entry: PlainWord,
    /// The owner row.
    pub row: PlainOwner,
}

/// A reply of zeros, which says that a call was made and has no value.
const DONE: PlainReply = PlainReply {
    refusal: 0,
    gives: 0,
    slot: 0,
    generation: 0,
    frame: 0,
    entry: BLANK,
    row: PlainOwner {
        owner: 0,
        is_lent: 0,
        borrower: 0,
        borrower_page: 0,
        usage: 0,
        user: 0,
    },
};

/// The value that a call gives. None if a number is unknown.
fn value_of(reply: PlainReply) -> Option<Value>
    ensures { result ≡ value_from_c reply }
{
    match reply.gives {
        0 => Some(Value::Nothing),
        1 => Some(Value::Vm(VmId {
            slot: reply.slot,
            generation: reply.generation,
        })),
        2 => Some(Value::Frame(Frame(reply.frame))),
        3 => entry_of(reply.entry).map(Value::Entry),
        4 => row_of(reply.row).map(Value::Row),
        _ => None,
    }
}

/// The reply that the numbers say. None if one is unknown.
pub fn reply_of(reply: PlainReply) -> Option<Reply>
    ensures { result ≡ reply_from_c reply }
{
    if reply.refusal == 0 {
        value_of(reply).map(Reply::Done)
    } else {
        refusal_of(reply.refusal).map(Reply::Refused)
    }
}

/// A value in numbers.
fn value_to_c(value: Value) -> PlainReply
    ensures said { reply_from_c result ≡ Some (Reply.Done value) }
    ensures written { result ≡ value_written value }
{
    match value {
        Value::Nothing => DONE,
        Value::Vm(vm) => PlainReply {
            gives: 1,
            slot: vm.slot,
            generation: vm.generation,
            ..DONE
        },
        Value::Frame(frame) => PlainReply {
            gives: 2,
            frame: frame.0,
            ..DONE
        },
        Value::Entry(entry) => PlainReply {
            gives: 3,
            entry: entry_to_c(entry),
            ..DONE
        },
        Value::Row(row) => PlainReply {
            gives: 4,
            row: owner_to_c(row),
            ..DONE
        },
    }
}

/// A reply in numbers.
pub fn reply_to_c(reply: Reply) -> PlainReply
    ensures said { reply_from_c result ≡ Some reply }
    ensures written { result ≡ reply_written reply }
{
    match reply {
        Reply::Done(value) => value_to_c(value),
        Reply::Refused(refusal) => PlainReply {
            refusal: refusal_number(refusal),
            ..DONE
        },
    }
}
