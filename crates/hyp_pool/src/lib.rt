//! Pools of frames: the free frames, of which the lowest are taken first, and the room for frames that come back.
#![tactic(auto)]

ghost use Rattle.std.specs.Prelude.{◌≡◌, ℕ, ◌+◌, ◌-◌, ◌^◌, ◌<◌, ◌≤◌, ◌↔◌, [], ◌∷◌, length, take, drop, reverse, max, vec_len, All, Contains, IsOk, IfOk, OnOk, OnErr, IfSome, IfNone, MatchOption};
ghost use Rattle.std.specs.Vec.{vec_capacity};
ghost use Rattle.page_state.specs.Trees.{frames_from};
ghost use Rattle.page_state.specs.Tables.{given};
ghost use Rattle.hyp_pool.specs.Pools.{IsPool, AreTaken, numbers};

mod frames;
pub mod laws;

pub use frames::Frames;
use page_state::Frame;
use std::alloc::{AllocError, Global};
use std::marker::Model;
use thiserror::Error;

/// Why frames aren't taken. NoPool is answered before memory is asked for.
#[derive(Clone, Copy, PartialEq, Debug, Error)]
pub enum PoolFault {
    /// Fewer frames are free.
    #[error("too few free frames")]
    NoPool,
    /// A growth was refused.
    #[error("out of memory")]
    NoMemory,
}

impl From<AllocError> for PoolFault {
    ghost use Rattle.hyp_pool.specs.declared.PoolFault.TheVariants.{NoMemory};

    ghost from_gives = { λ _ fault. fault ≡ NoMemory };

    fn from(_error: AllocError) -> PoolFault {
        PoolFault::NoMemory
    }
}

/// A set of free frames, with room for some number of frames. Frames within the room are given back without an
/// allocation.
#[derive(Drop)]
pub struct Pool {
    // the highest first, so that the lowest are taken from the end
    frames: Vec<Frame>,
    room: usize,
}

impl Model for Pool {
    ghost use Rattle.std.specs.Prelude.{◌≤◌};
    ghost use Rattle.std.specs.Vec.{vec_capacity};
    ghost use Rattle.hyp_pool.specs.Pools.{StoredFrames, IsPool, lowest_first};

    ghost Value = { StoredFrames };

    ghost view = { λ pool. record { frames = lowest_first pool.frames.items; room = pool.room } };

    ghost invariant = { λ pool. IsPool (record { frames = lowest_first pool.frames.items; room = pool.room })
        × (pool.room ≤ vec_capacity pool.frames) };
}

impl Pool {
    /// A pool of the `n` frames from `first` on, with room for as many. Requires that all of them are below 2^36.
    pub fn of(alloc: Global, first: Frame, n: usize) -> Result<Pool, AllocError>
        requires { (i : ℕ) → i < n → first.0 + i < 2 ^ 36 }
        ensures frames { IfOk result (λ pool. pool.frames ≡ frames_from first.0 n) }
        ensures room { IfOk result (λ pool. pool.room ≡ n) }
        ensures pool { IfOk result IsPool }
    {
        let mut frames = Vec::with_capacity(alloc, n)?;
        for i in (0..n).rev() {
            frames.push(Frame(first.0 + i as u64)).unwrap();
        }
        Ok(Pool { frames, room: n })
    }

    /// How many frames are free.
    pub fn free(&self) -> usize
        ensures value { result ≡ length self.now.frames }
        ensures pool { IsPool self.now }
    {
        self.frames.len()
    }

    /// For how many frames there is room, the free ones among them.
    pub fn room(&self) -> usize
        ensures value { result ≡ self.now.room }
        ensures pool { IsPool self.now }
    {
        self.room
    }

    /// The free frames, the lowest first.
    pub fn frames(&self) -> Frames<'_>
        ensures value { numbers result ≡ self.now.frames }
        ensures pool { IsPool self.now }
    {
        Frames::new(self.frames.as_slice())
    }

    /// Takes the least frame: every other is greater.
    pub fn take(&mut self) -> Option<Frame>
        ensures taken { MatchOption result (self.old.frames ≡ []) (λ f. self.old.frames ≡ f.0 ∷ self.new.frames) }
        ensures least { IfSome result (λ f. All (λ other. f.0 < other) self.new.frames) }
        ensures none { IfNone result (self.new.frames ≡ []) }
        ensures room { self.new.room ≡ self.old.room }
        ensures pool { IsPool self.new }
    {
        self.frames.pop()
    }

    /// Takes the `n` lowest frames, all or none. `n` = 0 needs no memory.
    pub fn take_many(&mut self, alloc: Global, n: usize) -> Result<Vec<Frame>, PoolFault>
        ensures taken { IfOk result (λ v. AreTaken n self.old self.new v.items) }
        ensures no_pool { (result ≡ Err PoolFault.NoPool) ↔ (length self.old.frames < n) }
        ensures nothing { n ≡ 0 → IsOk result }
        ensures err { OnErr result (self.new ≡ self.old) }
        ensures room { self.new.room ≡ self.old.room }
        ensures was { IsPool self.old }
        ensures pool { IsPool self.new }
    {
        let free = self.frames.len();
        if n > free {
            return Err(PoolFault::NoPool);
        }
        let mut taken = Vec::with_capacity(alloc, n)?;
        move_last(&mut self.frames, &mut taken, n);
        Ok(taken)
    }

    /// Makes the room at least `n`. No other call changes it.
    pub fn grow(&mut self, n: usize) -> Result<(), AllocError>
        ensures ok { OnOk result (self.new.room ≡ max n self.old.room) }
        ensures succeeds { n ≤ self.old.room → IsOk result }
        ensures err { OnErr result (self.new ≡ self.old) }
        ensures frames { self.new.frames ≡ self.old.frames }
        ensures pool { IsPool self.new }
    {
        if n > self.room {
            self.frames.reserve(n - self.frames.len())?;
            self.room = n;
        }
        Ok(())
    }

    /// Gives a frame back, within the room. It takes no memory and can't fail.
    pub fn give(&mut self, frame: Frame)
        requires new { ¬ Contains self.old.frames frame.0 }
        requires room { length self.old.frames < self.old.room }
        ensures frames { self.new.frames ≡ given frame.0 self.old.frames }
        ensures room { self.new.room ≡ self.old.room }
        ensures pool { IsPool self.new }
    {
        let place = self.frames.partition_point(|other| other.0 > frame.0);
        self.frames.insert(place, frame).unwrap();
    }
}

/// Moves the last `n` frames to an empty list, the last first.
fn move_last(from: &mut Vec<Frame>, to: &mut Vec<Frame>, n: usize)
    requires enough { n ≤ vec_len from.old }
    requires empty { to.old.items ≡ [] }
    requires reserved { n ≤ vec_capacity to.old }
    ensures moved { to.new.items ≡ reverse (drop (vec_len from.old - n) from.old.items) }
    ensures left { from.new.items ≡ take (vec_len from.old - n) from.old.items }
    ensures capacity { vec_capacity from.new ≡ vec_capacity from.old }
{
    let start = from.len() - n;
    to.extend_from_slice(&from[start..]).unwrap();
    to.reverse();
    from.truncate(start);
}
