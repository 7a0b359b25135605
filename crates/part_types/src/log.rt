//! Logs of calls, whose room is reserved at boot.
ghost use Rattle.part_types.specs.Logs.{IsNewLog};
ghost use Rattle.std.specs.Prelude.{◌≡◌, ◌+◌, ◌-◌, ◌^◌, ◌<◌, ◌↔◌, [], ◌∷◌, ◌++◌, length, IfOk, IsTrue};

use call_table::Call;
use std::alloc::{AllocError, Global};
use std::marker::Model;

/// The stored calls of one part or CPU, the oldest first.
#[derive(Drop)]
pub struct Log {
    calls: Vec<Call>,
    most: u64,
}

impl Model for Log {
    ghost use Rattle.std.specs.Prelude.{◌≤◌, ◌-◌, vec_len};
    ghost use Rattle.std.specs.Vec.{vec_capacity};
    ghost use Rattle.part_types.specs.Logs.{StoredCalls};

    ghost Value = { StoredCalls };

    ghost view = { λ log. record { calls = log.calls.items; room = log.most - vec_len log.calls } };

    ghost invariant = { λ log. (vec_len log.calls ≤ log.most) × (log.most ≤ vec_capacity log.calls) };
}

impl Log {
    /// An empty log that can store `calls` calls.
    pub fn new(alloc: Global, calls: u64) -> Result<Log, AllocError>
        ensures { IfOk result (IsNewLog calls) }
    {
        Ok(Log {
            calls: Vec::with_capacity(alloc, calls as usize)?,
            most: calls,
        })
    }

    /// How many calls are stored.
    pub fn len(&self) -> usize
        ensures value { result ≡ length self.now.calls }
        ensures small { result < 2 ^ 63 }
    {
        self.calls.len()
    }

    /// Whether no call is stored.
    pub fn is_empty(&self) -> bool
        ensures { IsTrue result ↔ (self.now.calls ≡ []) }
    {
        self.calls.is_empty()
    }

    /// How many more calls can be stored.
    pub fn room(&self) -> u64
        ensures { result ≡ self.now.room }
    {
        self.most - self.calls.len() as u64
    }

    /// Whether no further call can be stored.
    pub fn is_full(&self) -> bool
        ensures { IsTrue result ↔ (self.now.room ≡ 0) }
    {
        self.room() == 0
    }

    /// The stored calls.
    pub fn calls(&self) -> &[Call]
        ensures { result.now ≡ self.now.calls }
    {
        self.calls.as_slice()
    }

    /// Stores a call. It takes no memory. Requires room.
    pub fn store(&mut self, call: Call)
        requires { 0 < self.old.room }
        ensures calls { self.new.calls ≡ self.old.calls ++ call ∷ [] }
        ensures room { self.new.room + 1 ≡ self.old.room }
    {
        self.calls.push(call).unwrap();
    }
}
