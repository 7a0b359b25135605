//! The reply to a call, and the state after it.
ghost use Rattle.std.specs.Prelude.{◌≡◌, ◌≤◌, length};
ghost use Rattle.c_states.specs.Told.{lists_owned};
ghost use Rattle.pkvm_oracle.specs.Predicted.{fits as fits_in, no_sizes, room_of as room_of_lists, sizes_of as sizes_of_lists, AreWritten, IsCallPredicted, IsPut};

use crate::judged::{NOTHING, PlainRefused, unjudged_refused, unjudged_status};
use crate::statuses::NO_ROOM;
use c_states::{
    PlainCpu, PlainFrame, PlainGuest, PlainLayout, PlainLists, PlainLoad, PlainRow, PlainRun,
    PlainSlot, PlainState, PlainTable, Prediction, predicted_state,
};
use c_words::{PlainReply, PlainStep};
use std::alloc::Global;

/// Room for the lists of a state.
#[repr(C)]
pub struct PlainRoom<'a> {
    pub runs: &'a mut [PlainRun],
    pub tables: &'a mut [PlainTable],
    pub frames: &'a mut [PlainFrame],
    pub slots: &'a mut [PlainSlot],
    pub loads: &'a mut [PlainLoad],
    pub guests: &'a mut [PlainGuest],
    pub cpus: &'a mut [PlainCpu],
    pub rows: &'a mut [PlainRow],
}

/// The number of members of each list of a state.
#[repr(C)]
#[derive(Clone, Copy, PartialEq)]
pub struct PlainSizes {
    pub runs: u64,
    pub tables: u64,
    pub frames: u64,
    pub slots: u64,
    pub loads: u64,
    pub guests: u64,
    pub cpus: u64,
    pub rows: u64,
}

/// No member.
pub(crate) const NO_SIZES: PlainSizes = PlainSizes {
    runs: 0,
    tables: 0,
    frames: 0,
    slots: 0,
    loads: 0,
    guests: 0,
    cpus: 0,
    rows: 0,
};

/// The sizes of a state's lists.
pub(crate) fn sizes_of(lists: &PlainLists) -> PlainSizes
    ensures { result ≡ sizes_of_lists (lists_owned lists.now) }
{
    PlainSizes {
        runs: lists.runs.len() as u64,
        tables: lists.tables.len() as u64,
        frames: lists.frames.len() as u64,
        slots: lists.slots.len() as u64,
        loads: lists.loads.len() as u64,
        guests: lists.guests.len() as u64,
        cpus: lists.cpus.len() as u64,
        rows: lists.rows.len() as u64,
    }
}

/// The sizes for which there is room.
pub(crate) fn room_of(room: &PlainRoom<'_>) -> PlainSizes
    ensures { result ≡ room_of_lists room.now }
{
    PlainSizes {
        runs: room.runs.len() as u64,
        tables: room.tables.len() as u64,
        frames: room.frames.len() as u64,
        slots: room.slots.len() as u64,
        loads: room.loads.len() as u64,
        guests: room.guests.len() as u64,
        cpus: room.cpus.len() as u64,
        rows: room.rows.len() as u64,
    }
}

/// Whether lists of these sizes have room.
pub(crate) fn fits(sizes: PlainSizes, room: PlainSizes) -> bool
    ensures { result ≡ fits_in sizes room }
{
    let is_map_in = sizes.runs <= room.runs && sizes.tables <= room.tables;
    let is_use_in = sizes.frames <= room.frames && sizes.rows <= room.rows;
    let is_table_in = sizes.slots <= room.slots && sizes.loads <= room.loads;
    let is_rest_in = sizes.guests <= room.guests && sizes.cpus <= room.cpus;
    is_map_in && is_use_in && (is_table_in && is_rest_in)
}

/// Writes the members into the front of a room.
fn put<T: Copy>(members: &[T], room: &mut [T])
    requires { length members.now ≤ length room.old }
    ensures { IsPut members.now room.old room.new }
{
    room[..members.len()].copy_from_slice(members);
}

/// Writes the lists into the fronts of their rooms.
pub(crate) fn put_all(lists: &PlainLists, room: &mut PlainRoom<'_>)
    requires runs { length lists.now.runs.items ≤ length room.old.runs.now }
    requires tables { length lists.now.tables.items ≤ length room.old.tables.now }
    requires frames { length lists.now.frames.items ≤ length room.old.frames.now }
    requires slots { length lists.now.slots.items ≤ length room.old.slots.now }
    requires loads { length lists.now.loads.items ≤ length room.old.loads.now }
    requires guests { length lists.now.guests.items ≤ length room.old.guests.now }
    requires cpus { length lists.now.cpus.items ≤ length room.old.cpus.now }
    requires rows { length lists.now.rows.items ≤ length room.old.rows.now }
    ensures { AreWritten (lists_owned lists.now) room.old room.new }
{
    put(lists.runs.as_slice(), room.runs);
    put(lists.tables.as_slice(), room.tables);
    put(lists.frames.as_slice(), room.frames);
    put(lists.slots.as_slice(), room.slots);
    put(lists.loads.as_slice(), room.loads);
    put(lists.guests.as_slice(), room.guests);
    put(lists.cpus.as_slice(), room.cpus);
    put(lists.rows.as_slice(), room.rows);
}

/// The reply that the model gives to a call of a CPU on a state, and the state after it: 0, `reply` has the first, the
/// fronts of the rooms, as far as `sizes` says, have the second, and all after them stays. -2 if a list has no room:
/// `sizes` says what is needed. Else `sizes` is 0 throughout: -5, -7 to -9, -11 something is refused, and `refused`
/// says what; -12 memory was. Below 0 `reply` and all rooms stay.
#[unsafe(no_mangle)]
pub extern "C" fn pkvm_predict(
    alloc: Global,
    layout: &PlainLayout<'_>,
    before: &PlainState<'_>,
    cpu: u64,
    step: &PlainStep,
    reply: &mut PlainReply,
    room: &mut PlainRoom<'_>,
    sizes: &mut PlainSizes,
    refused: &mut PlainRefused,
) -> i32
    ensures { IsCallPredicted layout.now before.now cpu step.now reply.old reply.new room.old room.new
        sizes.new refused.new result }
{
    *refused = NOTHING;
    *sizes = NO_SIZES;
    let Prediction { reply: told, after } = match predicted_state(
        alloc, layout, before, cpu, *step,
    ) {
        Ok(predicted) => predicted,
        Err(why) => {
            *refused = unjudged_refused(why);
            return unjudged_status(why);
        }
    };
    let needed = sizes_of(&after);
    *sizes = needed;
    let is_in = fits(needed, room_of(room));
    if is_in {
        *reply = told;
        put_all(&after, room);
    }
    drop(after);
    if is_in { 0 } else { NO_ROOM }
}
