//! A call judged, and its reply predicted.
ghost use Rattle.std.specs.Prelude.{◌≡◌, Err, length};
ghost use Rattle.c_states.specs.Views.{lists_from_c};
ghost use Rattle.pkvm_oracle.specs.Judged.{IsCallJudged, IsPredicted};
ghost use Rattle.pkvm_oracle.specs.Refusals.{fault_of_freedoms, fault_of_layout, fault_of_lists, fault_of_rows, number_of_list, of_fault as of_fault_of, refused_by, refused_by_found, refused_by_made, refused_by_state, status_by, status_by_found, status_by_made};

use crate::statuses::{
    BAD_AFTER, BAD_BEFORE, BAD_CPU, BAD_LAYOUT, BAD_REPLY, BAD_STEP, LAST_GENERATION, NO_MEMORY,
    NO_ROOM,
};
use c_judge::{FreedomsFault, Unfound, judged_by, write_found};
use c_states::{
    PlainCall, PlainFault, PlainLayout, PlainLayoutFault, PlainList, PlainState, Unjudged, Unmade,
    predicted,
};
use c_words::{PlainReply, PlainStep};
use ghost_spec::filled::GhostFault;
use page_state::LayoutFault;
use std::alloc::Global;

/// Why a layout or a state is refused.
#[repr(C)]
#[derive(Clone, Copy, PartialEq)]
pub struct PlainRefused {
    /// The fault's number; 0 for none.
    pub fault: u64,
    /// The number of the list whose member is at fault, if one is named, and the member's index. Otherwise 0.
    pub list: u64,
    pub index: u64,
}

/// Nothing is refused.
pub(crate) const NOTHING: PlainRefused = PlainRefused {
    fault: 0,
    list: 0,
    index: 0,
};

/// The number of a list.
fn list_number(list: PlainList) -> u64
    ensures { result ≡ number_of_list list }
{
    match list {
        PlainList::Runs => 1,
        PlainList::Tables => 2,
        PlainList::Frames => 3,
        PlainList::Slots => 4,
        PlainList::Loads => 5,
        PlainList::Guests => 6,
        PlainList::Cpus => 7,
        PlainList::Rows => 8,
    }
}

/// The number of a fault of a layout.
fn layout_number(fault: PlainLayoutFault) -> u64
    ensures { result ≡ fault_of_layout fault }
{
    match fault {
        PlainLayoutFault::Geometry => 1,
        PlainLayoutFault::Memory(LayoutFault::TooMany) => 2,
        PlainLayoutFault::Memory(LayoutFault::Empty) => 3,
        PlainLayoutFault::Memory(LayoutFault::PastLimit) => 4,
        PlainLayoutFault::Memory(LayoutFault::Overlap) => 5,
        PlainLayoutFault::Memory(LayoutFault::CarveOutside) => 6,
        PlainLayoutFault::Memory(LayoutFault::NoMemory) | PlainLayoutFault::NoMemory => 0,
    }
}

/// The number of a fault of owner rows.
fn rows_number(fault: GhostFault) -> u64
    ensures { result ≡ fault_of_rows fault }
{
    match fault {
        GhostFault::TooLarge => 8,
        GhostFault::Overlap => 9,
        _ => 0,
    }
}

/// The number of a fault of lists.
fn lists_number(fault: GhostFault) -> u64
    ensures { result ≡ fault_of_lists fault }
{
    match fault {
        GhostFault::TooLarge => 11,
        GhostFault::Overlap => 12,
        GhostFault::TableTwice => 13,
        GhostFault::FrameTwice => 14,
        GhostFault::WrongCount | GhostFault::NoMemory => 0,
    }
}

/// A fault with this number, of no list.
pub(crate) fn of_fault(fault: u64) -> PlainRefused
    ensures { result ≡ of_fault_of fault }
{
    PlainRefused { fault, ..NOTHING }
}

/// A fault of a state in numbers.
fn state_refused(fault: PlainFault) -> PlainRefused
    ensures { result ≡ refused_by_state fault }
{
    match fault {
        PlainFault::Unknown(list, at) => PlainRefused {
            fault: 7,
            list: list_number(list),
            index: at as u64,
        },
        PlainFault::Rows(fault) => of_fault(rows_number(fault)),
        PlainFault::Twice(list, at) => PlainRefused {
            fault: 10,
            list: list_number(list),
            index: at as u64,
        },
        PlainFault::Lists(fault, None) => of_fault(lists_number(fault)),
        PlainFault::Lists(fault, Some((list, at))) => PlainRefused {
            fault: lists_number(fault),
            list: list_number(list),
            index: at as u64,
        },
        PlainFault::NoMemory => NOTHING,
    }
}

/// Why a layout and lists make no state, in numbers.
pub(crate) fn unmade_refused(why: Unmade) -> PlainRefused
    ensures { result ≡ refused_by_made why }
{
    match why {
        Unmade::Layout(fault) => of_fault(layout_number(fault)),
        Unmade::State(fault) => state_refused(fault),
    }
}

/// The status of a layout or a state that is refused: `state` if it is the state.
pub(crate) fn unmade_status(why: Unmade, state: i32) -> i32
    ensures { result ≡ status_by_made state why }
{
    match why {
        Unmade::Layout(PlainLayoutFault::NoMemory | PlainLayoutFault::Memory(LayoutFault::NoMemory))
        | Unmade::State(PlainFault::NoMemory) => NO_MEMORY,
        Unmade::Layout(_) => BAD_LAYOUT,
        Unmade::State(_) => state,
    }
}

/// The status of a call that isn't judged.
pub(crate) fn unjudged_status(why: Unjudged) -> i32
    ensures { result ≡ status_by why }
{
    match why {
        Unjudged::Step => BAD_STEP,
        Unjudged::Reply => BAD_REPLY,
        Unjudged::Cpu => BAD_CPU,
        Unjudged::Before(why) => unmade_status(why, BAD_BEFORE),
        Unjudged::Generation => LAST_GENERATION,
        Unjudged::After(why) => unmade_status(why, BAD_AFTER),
        Unjudged::NoMemory => NO_MEMORY,
    }
}

/// The refusal of a call that isn't judged.
pub(crate) fn unjudged_refused(why: Unjudged) -> PlainRefused
    ensures { result ≡ refused_by why }
{
    match why {
        Unjudged::Before(why) | Unjudged::After(why) => unmade_refused(why),
        Unjudged::Step
        | Unjudged::Reply
        | Unjudged::Cpu
        | Unjudged::Generation
        | Unjudged::NoMemory => NOTHING,
    }
}

/// The number of a fault of freedoms.
fn freedoms_number(fault: FreedomsFault) -> u64
    ensures { result ≡ fault_of_freedoms fault }
{
    match fault {
        FreedomsFault::Unknown => 23,
        FreedomsFault::WithoutOwnTables => 24,
    }
}

/// The status if there is no judgement.
fn unfound_status(why: Unfound) -> i32
    ensures { result ≡ status_by_found why }
{
    match why {
        Unfound::Freedoms(_) => BAD_LAYOUT,
        Unfound::Call(why) => unjudged_status(why),
    }
}

/// The refusal if there is no judgement.
fn unfound_refused(why: Unfound) -> PlainRefused
    ensures { result ≡ refused_by_found why }
{
    match why {
        Unfound::Freedoms(fault) => of_fault(freedoms_number(fault)),
        Unfound::Call(why) => unjudged_refused(why),
    }
}

/// Judges a call by the state before it, its reply and the state after it, up to the layout's freedoms: 0 if both are
/// as the model says, or the call was refused because memory ran out and changed nothing; 1 if they aren't, and the
/// first `text_len` bytes of `text` say the first difference. Below 0 nothing is written to `text`: -2 it has fewer
/// than `text_len` bytes, which the difference needs; -5 to -11 something is refused, and `refused` says what; -12
/// memory was.
#[unsafe(no_mangle)]
pub extern "C" fn pkvm_judge(
    alloc: Global,
    layout: &PlainLayout<'_>,
    before: &PlainState<'_>,
    call: &PlainCall,
    after: &PlainState<'_>,
    text: &mut [u8],
    text_len: &mut usize,
    refused: &mut PlainRefused,
) -> i32
    ensures { IsCallJudged layout.now before.now call.now after.now text.old text.new text_len.new
        refused.new result }
{
    *text_len = 0;
    *refused = NOTHING;
    let found = match judged_by(alloc, layout, before, call, after) {
        Ok(None) => return 0,
        Ok(Some(found)) => found,
        Err(why) => {
            *refused = unfound_refused(why);
            return unfound_status(why);
        }
    };
    match write_found(alloc, found, text) {
        Ok(count) => {
            *text_len = count;
            if count <= text.len() { 1 } else { NO_ROOM }
        }
        Err(_) => NO_MEMORY,
    }
}

/// The reply that the model gives to a call of a CPU on a state: 0, and it is written to `reply`. Below 0 `reply` stays: -5, -7 to
/// -9, -11 something is refused, and `refused` says what; -12 memory was.
#[unsafe(no_mangle)]
pub extern "C" fn pkvm_predict_reply(
    alloc: Global,
    layout: &PlainLayout<'_>,
    before: &PlainState<'_>,
    cpu: u64,
    step: &PlainStep,
    reply: &mut PlainReply,
    refused: &mut PlainRefused,
) -> i32
    ensures { IsPredicted layout.now layout.now.regions.now
        (lists_from_c before.now) cpu step.now reply.old reply.new refused.new result }
{
    *refused = NOTHING;
    match predicted(alloc, layout, before, cpu, *step) {
        Ok(told) => {
            *reply = told;
            0
        }
        Err(why) => {
            *refused = unjudged_refused(why);
            unjudged_status(why)
        }
    }
}
