//! Changes of a CPU's own state.
ghost use Rattle.std.specs.Prelude.{◌≡◌};
ghost use Rattle.part_types.specs.View.{cpu_of};
ghost use Rattle.reference_model.specs.model.Changes.{cpu_by, updated as updated_by};

use crate::parts::CpuState;
use reference_model::{CpuChange, Update};

/// A field after its update.
fn updated<T: Copy>(update: Update<T>, field: T) -> T
    ensures { result ≡ updated_by update field }
{
    match update {
        Update::Keep => field,
        Update::Becomes(value) => value,
    }
}

impl CpuState {
    /// Changes the CPU's loaded vCPU, its hand and its ticket. Its number and its log stay.
    pub fn change(&mut self, change: &CpuChange)
        ensures made { cpu_of self.new ≡ cpu_by change.now (cpu_of self.old) }
        ensures log { self.new.log ≡ self.old.log }
        ensures id { self.new.id ≡ self.old.id }
    {
        self.loaded = updated(change.loaded, self.loaded);
        self.hand = updated(change.hand, self.hand);
        self.ticket = updated(change.ticket, self.ticket);
    }
}
