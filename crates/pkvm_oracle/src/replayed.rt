//! Traces replayed.
ghost use Rattle.std.specs.Prelude.{◌≡◌, ◌≤◌, drop, length, min, take};
ghost use Rattle.pkvm_oracle.specs.Replayed.{IsAnswered, status_of};

use crate::statuses::{NO_MEMORY, NO_ROOM};
use std::alloc::Global;
use trace_reader::Outcome;
use trace_text::{Replayed, replay_bytes};

/// Writes as many bytes as there is room for, and returns how many.
fn put(bytes: &[u8], room: &mut [u8]) -> usize
    ensures count { result ≡ min (length bytes.now) (length room.old) }
    ensures front { take result room.new ≡ take result bytes.now }
    ensures behind { drop result room.new ≡ drop result room.old }
    ensures length { length room.new ≡ length room.old }
{
    let count = bytes.len().min(room.len());
    room[..count].copy_from_slice(&bytes[..count]);
    count
}

/// The status of an outcome.
fn outcome_status(outcome: Outcome) -> i32
    ensures { result ≡ status_of outcome }
{
    match outcome {
        Outcome::Clean => 0,
        Outcome::Disagreed => 1,
        Outcome::Fault => 2,
    }
}

/// Replays a whole trace, each step judged and audited, and writes its report into the front of `report`: 0 nothing
/// disagreed, 1 something did, 2 the trace has a fault, and `written` is the number of its bytes. -2 if that is more
/// than there is room for: the room has its front. -12 if memory was refused: `written` bytes of a beginning were
/// written.
#[unsafe(no_mangle)]
pub extern "C" fn pkvm_replay(
    alloc: Global,
    trace: &[u8],
    report: &mut [u8],
    written: &mut usize,
) -> i32
    ensures { IsAnswered trace.now report.old report.new written.new result }
{
    let Replayed {
        outcome,
        report: all,
    } = replay_bytes(alloc, trace);
    let count = put(all.as_slice(), report);
    match outcome {
        Ok(outcome) => {
            *written = all.len();
            if count == all.len() {
                outcome_status(outcome)
            } else {
                NO_ROOM
            }
        }
        Err(_) => {
            *written = count;
            NO_MEMORY
        }
    }
}
