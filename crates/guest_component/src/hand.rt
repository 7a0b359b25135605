//! Frames that a guest gets: its root and pool from a hand, and more frames for its pool.
ghost use Rattle.std.specs.Prelude.{◌≡◌, ℕ, ◌+◌, ◌≤◌, ◌^◌, ◌∷◌, true, length, IfOk};
ghost use Rattle.guest_component.specs.Changing.{IsHand};
ghost use Rattle.page_state.specs.Counts.{frame_count};
ghost use Rattle.page_state.specs.Regions.{end_of, is_in_range};
ghost use Rattle.page_state.specs.Tables.{all_given};
ghost use Rattle.reference_model.specs.model.Changes.{frames_in};

use hyp_pool::Pool;
use page_state::{Frame, PageRange};
use std::alloc::{AllocError, Global};

/// The most frames that a guest has apart from its root: it has at most 512 in all.
const POOL_ROOM: usize = 511;

/// The first frame of a hand, and the pool of the others, with room for all that a guest may get.
pub(crate) fn split_hand(global: Global, hand: PageRange) -> Result<(Frame, Pool), AllocError>
    requires { IsHand hand }
    ensures first { IfOk result (λ r. r.0.0 ≡ hand.first.0) }
    ensures frames { IfOk result (λ r. frames_in hand ≡ r.0.0 ∷ r.1.frames) }
    ensures room { IfOk result (λ r. 511 ≤ r.1.room) }
{
    let mut pool = Pool::of(global, Frame(hand.first.0), hand.count as usize)?;
    pool.grow(POOL_ROOM)?;
    let root = pool.take().unwrap();
    Ok((root, pool))
}

/// Gives frames to a pool that has none of them, within its room.
pub(crate) fn give_frames(pool: &mut Pool, frames: PageRange)
    requires apart { (f : ℕ) → is_in_range frames f ≡ true → frame_count f pool.old.frames ≡ 0 }
    requires covered { length pool.old.frames + frames.count ≤ pool.old.room }
    requires low { end_of frames ≤ 2 ^ 36 }
    ensures frames { pool.new.frames ≡ all_given (frames_in frames) pool.old.frames }
    ensures room { pool.new.room ≡ pool.old.room }
{
    for i in (0..frames.count).rev() {
        pool.give(Frame(frames.first.0 + i));
    }
}
