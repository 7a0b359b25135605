//! How the contents are written.
ghost use Rattle.std.specs.Prelude.{◌≡◌, IfOk, Some, string_bytes};
ghost use Rattle.guest_component.specs.Bodies.{phase_of};
ghost use Rattle.guest_component.specs.View.{guest_in};
ghost use Rattle.trace_explain.specs.Texts.{guest_line, text_of_guest, text_of_slot};
ghost use Rattle.vm_table.specs.View.{slot_of};

use call_table::{VmKind, vm_kind_word};
use ghost_oracle::{phase_from, stand_from};
use guest_component::{Body, Phase};
use state_changes::{phase_word, stand_word};
use std::alloc::{AllocError, Allocator, Global};
use std::fmt;
use vm_table::Slot;

/// A guest that isn't Empty.
pub(crate) fn body_text<A: Allocator>(global: Global, body: &Body<A>) -> Result<String, AllocError>
    ensures { IfOk result (λ text. string_bytes text ≡ text_of_guest (guest_in (Some body.now))) }
{
    let line = GuestLine {
        phase: body.phase,
        generation: body.generation,
        kind: body.kind,
        free: body.pool.free(),
    };
    format!(in global; "{line}")
}

/// A VM slot.
pub(crate) fn entry_text(global: Global, slot: Slot) -> Result<String, AllocError>
    ensures { IfOk result (λ text. string_bytes text ≡ text_of_slot (slot_of slot)) }
{
    let line = SlotLine(slot);
    format!(in global; "{line}")
}

/// The texts of a guest that isn't Empty.
#[derive(Clone, Copy)]
struct GuestLine {
    phase: Phase,
    generation: u64,
    kind: VmKind,
    free: usize,
}

impl fmt::Display for GuestLine {
    ghost output = { λ line. Some (guest_line (phase_of line.phase) line.generation line.kind line.free) };

    fn fmt<W: fmt::Write>(&self, f: &mut fmt::Formatter<W>) -> fmt::Result {
        let phase = phase_word(phase_from(self.phase));
        let generation = self.generation;
        let kind = vm_kind_word(self.kind);
        let free = self.free;
        write!(f, "{phase} generation {generation} {kind} free {free}")
    }
}

/// A slot of the VM table.
#[derive(Clone, Copy)]
struct SlotLine(Slot);

impl fmt::Display for SlotLine {
    ghost output = { λ line. Some (text_of_slot (slot_of line.0)) };

    fn fmt<W: fmt::Write>(&self, f: &mut fmt::Formatter<W>) -> fmt::Result {
        let stand = stand_word(stand_from(self.0.state));
        let generation = self.0.generation;
        let kind = vm_kind_word(self.0.kind);
        let vcpus = self.0.vcpus;
        write!(f, "{stand} generation {generation} {kind} vcpus {vcpus}")
    }
}
