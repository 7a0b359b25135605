//! Which members have known numbers.
ghost use Rattle.std.specs.Prelude.{◌≡◌, Bool, not, position};
ghost use Rattle.c_states.specs.Known.{is_cpu, is_frame, is_guest, is_load, is_row, is_run, is_slot, is_table};

use crate::members::{
    PlainCpu, PlainFrame, PlainGuest, PlainLoad, PlainRow, PlainRun, PlainSlot, PlainTable,
};
use c_words::{row_of, target_of};

/// The trees: the host's, the hypervisor's and those of 64 guests.
const TREES: u64 = 66;

/// The slots of the table of VMs.
const SLOTS: u64 = 64;

/// The most vCPUs of a VM.
const VCPUS: u64 = 8;

/// What can have numbers that aren't known.
pub(crate) trait Known: Copy {
    ghost known: { Self → Bool };

    /// Whether all numbers are known.
    fn is_known(self) -> bool
        ensures { result ≡ known self };
}

impl Known for PlainRun {
    ghost known = { is_run };

    fn is_known(self) -> bool {
        self.tree < TREES && target_of(self.word).is_some()
    }
}

impl Known for PlainTable {
    ghost known = { is_table };

    fn is_known(self) -> bool {
        self.tree < TREES
    }
}

impl Known for PlainFrame {
    ghost known = { is_frame };

    fn is_known(self) -> bool {
        1 <= self.pool && self.pool < TREES
    }
}

impl Known for PlainSlot {
    ghost known = { is_slot };

    fn is_known(self) -> bool {
        self.slot < SLOTS && self.stand < 4 && self.kind < 2
    }
}

impl Known for PlainLoad {
    ghost known = { is_load };

    fn is_known(self) -> bool {
        self.slot < SLOTS && self.vcpu < VCPUS
    }
}

impl Known for PlainGuest {
    ghost known = { is_guest };

    fn is_known(self) -> bool {
        self.slot < SLOTS && self.phase < 3 && self.kind < 2
    }
}

impl Known for PlainRow {
    ghost known = { is_row };

    fn is_known(self) -> bool {
        row_of(self.owner).is_some()
    }
}

/// The index of the first member with a number that isn't known.
pub(crate) fn first_unknown<T: Known>(members: &[T]) -> Option<usize>
    ensures { result ≡ position (λ x. not (T.known x)) members.now }
{
    members.iter().position(|member| !member.is_known())
}

/// Whether a CPU's number is below the count, and all its numbers are known.
fn is_known_cpu(count: u64, cpu: PlainCpu) -> bool
    ensures { result ≡ is_cpu count cpu }
{
    cpu.cpu < count
        && (cpu.has_vcpu == 0 || cpu.vcpu < VCPUS)
        && (cpu.has_ticket == 0 || cpu.ticket_kind < 2 && cpu.ticket_stage < 5)
}

/// The index of the first CPU whose number isn't below the count, or that has an unknown number.
pub(crate) fn first_unknown_cpu(cpus: &[PlainCpu], count: u64) -> Option<usize>
    ensures { result ≡ position (λ k. not (is_cpu count k)) cpus.now }
{
    cpus.iter().position(|cpu| !is_known_cpu(count, *cpu))
}
