//! Replies, and calls as logs store them.
use crate::{Step, VmId};
use page_state::{Entry, Frame, Row};

/// The value of a call that returns Ok.
#[derive(Clone, Copy, PartialEq)]
pub enum Value {
    /// No value.
    Nothing,
    /// The VM that was made.
    Vm(VmId),
    /// The frame that was given back.
    Frame(Frame),
    /// The entry of the page that was asked about.
    Entry(Entry),
    /// The owner row of the frame that was asked about.
    Row(Row),
}

/// Why a call was refused. In brackets the number of the reply (profile).
#[derive(Clone, Copy, PartialEq)]
pub enum Refusal {
    /// (-1) The pages or frames aren't in the state that the call requires.
    Perm,
    /// (-2) There is no such VM, or the CPU lacks the vCPU or the ticket.
    NoVm,
    /// (-11) A part that the call uses was taken.
    Contended,
    /// (-12) A growth was refused.
    NoMemory,
    /// (-16) A slot, vCPU or ticket that the call needs is in use.
    Busy,
    /// (-22) An argument is out of its range.
    Invalid,
    /// (-28) A pool has fewer free frames than the call needs.
    NoPool,
    /// (-75) A log that would store the call is full.
    LogFull,
}

/// The answer of a call: Ok with a value, which is 0 as a number, or a refusal.
#[derive(Clone, Copy, PartialEq)]
pub enum Reply {
    /// The call was made.
    Done(Value),
    /// The call was refused, and has changed no map, row or pool.
    Refused(Refusal),
}

/// A call as logs store it.
#[derive(Clone, Copy, PartialEq)]
pub struct Call {
    /// The CPU that made it.
    pub cpu: u64,
    /// The CPU's own number of the call: one more than its log held before.
    pub number: u64,
    pub step: Step,
    pub reply: Reply,
    /// The slot of the Guest part that the call used.
    pub slot: Option<u64>,
}
