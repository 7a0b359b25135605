//! Runs of a hypervisor recorded as traces.
ghost use Rattle.std.specs.Prelude.{◌≡◌};
ghost use Rattle.pkvm_oracle.specs.Traced.{IsCallTraced, IsStartTraced, status_by_line, status_in};

use crate::booted::{unbooted_refused, unbooted_status};
use crate::judged::{NOTHING, PlainRefused};
use crate::statuses::{BAD_CPU, BAD_STEP, NO_MEMORY, NO_ROOM};
use c_calls::{Unwritten, write_call, write_start};
use c_states::{PlainCall, PlainLayout};
use std::alloc::Global;

/// The status of a call that has no line.
fn unwritten_status(why: Unwritten) -> i32
    ensures { result ≡ status_by_line why }
{
    match why {
        Unwritten::Step => BAD_STEP,
        Unwritten::Cpu => BAD_CPU,
        Unwritten::NoMemory => NO_MEMORY,
    }
}

/// The status of text of a length in a room.
fn room_status(count: usize, room: usize) -> i32
    ensures { result ≡ status_in count room }
{
    if count <= room { 0 } else { NO_ROOM }
}

/// The lines that a trace of the layout begins with, its boot the last: 0, and the first `text_len` bytes of `text` are they. Below 0
/// `text` stays: -2 it has fewer than `text_len` bytes, which they need; -8 the layout is refused or doesn't boot, and `refused` says
/// why; -12 memory was.
#[unsafe(no_mangle)]
pub extern "C" fn pkvm_trace_start(
    alloc: Global,
    layout: &PlainLayout<'_>,
    text: &mut [u8],
    text_len: &mut usize,
    refused: &mut PlainRefused,
) -> i32
    ensures { IsStartTraced layout.now layout.now.regions.now text.old text.new text_len.new refused.new
        result }
{
    *text_len = 0;
    *refused = NOTHING;
    let room = text.len();
    match write_start(alloc, layout, text) {
        Ok(count) => {
            *text_len = count;
            room_status(count, room)
        }
        Err(why) => {
            *refused = unbooted_refused(why);
            unbooted_status(why)
        }
    }
}

/// The line of a trace that makes the call of a CPU: 0, and the first `text_len` bytes of `text` are it. Below 0 `text` stays: -2 it has
/// fewer than `text_len` bytes, which the line needs; -5 the call is unknown; -7 the layout hasn't the CPU; -12 memory was refused.
#[unsafe(no_mangle)]
pub extern "C" fn pkvm_trace_of(
    alloc: Global,
    layout: &PlainLayout<'_>,
    call: &PlainCall,
    text: &mut [u8],
    text_len: &mut usize,
) -> i32
    ensures { IsCallTraced layout.now call.now text.old text.new text_len.new result }
{
    *text_len = 0;
    let room = text.len();
    match write_call(alloc, layout, call, text) {
        Ok(count) => {
            *text_len = count;
            room_status(count, room)
        }
        Err(why) => unwritten_status(why),
    }
}
