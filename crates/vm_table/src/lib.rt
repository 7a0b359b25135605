//! The VM table: the state of each of the 64 VM slots, and which CPU has each vCPU loaded.
#![tactic(auto)]

ghost use Rattle.std.specs.Prelude.{◌≡◌, ℕ, ◌+◌, ◌<◌, ◌≤◌, ◌^◌, IfOk, IfSome, Some, is_some};
ghost use Rattle.reference_model.specs.help.ChangeLaws.{FitsTable};
ghost use Rattle.reference_model.specs.model.Changes.{vms_by};
ghost use Rattle.reference_model.specs.declared.changes.SlotChange.TheVariants.{Close, Load, Open as OpenSlot, Release, Reserve, Unload};
ghost use Rattle.reference_model.specs.model.State.{no_slot, no_vms, put_at, vacant};
ghost use Rattle.reference_model.specs.model.VmRules.{is_any_loaded as is_any_loaded_of, is_open as is_open_of, stand_eq, vacant_slot};
ghost use Rattle.vm_table.specs.View.{slot_of, vms_of};

use call_table::{VmId, VmKind};
use reference_model::SlotChange;
use std::alloc::{AllocError, Global};
use std::marker::Model;

/// The state of a slot.
#[derive(Clone, Copy, PartialEq)]
pub enum SlotState {
    /// No VM has it.
    Vacant,
    /// A VM is being made in it.
    Reserved,
    /// Its VM runs.
    Open,
    /// Its VM is being ended.
    Closing,
}

/// A slot of the VM part.
#[derive(Clone, Copy)]
pub struct Slot {
    /// Its state.
    pub state: SlotState,
    /// Its generation, 1 at boot, one more each time it is released.
    pub generation: u64,
    /// The kind of its VM.
    pub kind: VmKind,
    /// The number of its VM's vCPUs, at most 8.
    pub vcpus: u64,
    /// The CPU that has each vCPU loaded.
    pub loaded: [Option<u64>; 8],
}

/// The 64 slots of the VM part. All its memory is taken at boot: no change takes any.
#[derive(Drop)]
pub struct VmTable {
    slots: Vec<Slot>,
}

impl Model for VmTable {
    ghost use Rattle.std.specs.Prelude.{◌≡◌, List, vec_len};
    ghost use Rattle.vm_table.specs.declared.Slot.{Slot as TableSlot};

    ghost Value = { List TableSlot };

    ghost view = { λ m. m.slots.items };

    ghost invariant = { λ m. vec_len m.slots ≡ 64 };
}

impl Slot {
    /// A slot that no VM has, of the generation.
    fn empty(generation: u64) -> Slot
        ensures { slot_of result ≡ no_slot generation }
    {
        Slot {
            state: SlotState::Vacant,
            generation,
            kind: VmKind::Plain,
            vcpus: 0,
            loaded: [None; 8],
        }
    }

    /// The slot with another CPU that has a vCPU loaded, or none.
    fn with_load(self, vcpu: u64, cpu: Option<u64>) -> Slot
        requires { vcpu < 8 }
        ensures { slot_of result ≡ record (slot_of self) { loaded = put_at (slot_of self).loaded vcpu cpu } }
    {
        let mut slot = self;
        slot.loaded[vcpu as usize] = cpu;
        slot
    }
}

impl VmTable {
    /// The table at boot: no slot has a VM, and each has generation 1. It fails only if the allocator refuses memory.
    pub fn new(alloc: Global) -> Result<VmTable, AllocError>
        ensures { IfOk result (λ t. vms_of t ≡ no_vms) }
    {
        let slots = vec![in alloc; Slot::empty(1); 64]?;
        Ok(VmTable { slots })
    }

    /// A slot.
    pub fn slot(&self, slot: u64) -> Slot
        requires { slot < 64 }
        ensures { slot_of result ≡ (vms_of self.now).slot slot }
    {
        self.slots[slot as usize]
    }

    /// Past the 64 slots there are only Empty ones. It does nothing, and its contract is the law.
    pub fn empty_past(&self)
        ensures { (v : ℕ) → 64 ≤ v → (vms_of self.now).slot v ≡ no_slot 1 }
    {
        let _ = &self.slots;
    }

    /// Another slot in place of one.
    fn put_slot(&mut self, slot: u64, entry: Slot)
        requires { slot < 64 }
        ensures { vms_of self.new
            ≡ record (vms_of self.old)
            { slot = put_at (vms_of self.old).slot slot (slot_of entry) } }
    {
        self.slots[slot as usize] = entry;
    }

    /// Whether the VM's slot is Open with the VM's generation.
    pub fn is_open(&self, vm: VmId) -> bool
        requires { vm.slot < 64 }
        ensures { result ≡ is_open_of vm ((vms_of self.now).slot vm.slot) }
    {
        let slot = self.slot(vm.slot);
        matches!(slot.state, SlotState::Open) && slot.generation == vm.generation
    }

    /// Whether a CPU has the slot's vCPU loaded.
    pub fn is_loaded(&self, slot: u64, vcpu: u64) -> bool
        requires { (slot < 64) × (vcpu < 8) }
        ensures { result ≡ is_some (((vms_of self.now).slot slot).loaded vcpu) }
    {
        self.slot(slot).loaded[vcpu as usize].is_some()
    }

    /// Whether a CPU has some vCPU of the slot loaded.
    pub fn is_any_loaded(&self, slot: u64) -> bool
        requires { slot < 64 }
        ensures { result ≡ is_any_loaded_of ((vms_of self.now).slot slot) }
    {
        for vcpu in 0..8 {
            if self.is_loaded(slot, vcpu) {
                return true;
            }
        }
        false
    }

    /// Whether the slot is Vacant.
    fn is_vacant(&self, slot: u64) -> bool
        requires { slot < 64 }
        ensures { result ≡ stand_eq ((vms_of self.now).slot slot).stand vacant }
    {
        matches!(self.slot(slot).state, SlotState::Vacant)
    }

    /// The lowest Vacant slot, or None.
    pub fn vacant(&self) -> Option<u64>
        ensures value { result ≡ vacant_slot (vms_of self.now) }
        ensures small { IfSome result (λ slot. slot < 64) }
    {
        for slot in 0..64 {
            if self.is_vacant(slot) {
                return Some(slot);
            }
        }
        None
    }

    /// The slot becomes Reserved for a VM of the kind with `vcpus` vCPUs.
    pub fn reserve(&mut self, slot: u64, kind: VmKind, vcpus: u64)
        requires { slot < 64 }
        ensures { vms_of self.new ≡ vms_by (Reserve slot kind vcpus) (vms_of self.old) }
    {
        let old = self.slot(slot);
        self.put_slot(
            slot,
            Slot {
                state: SlotState::Reserved,
                kind,
                vcpus,
                ..old
            },
        );
    }

    /// The slot becomes Open.
    pub fn open(&mut self, slot: u64)
        requires { slot < 64 }
        ensures { vms_of self.new ≡ vms_by (OpenSlot slot) (vms_of self.old) }
    {
        let old = self.slot(slot);
        self.put_slot(
            slot,
            Slot {
                state: SlotState::Open,
                ..old
            },
        );
    }

    /// A CPU has the slot's vCPU loaded.
    pub fn load(&mut self, slot: u64, vcpu: u64, cpu: u64)
        requires { (slot < 64) × (vcpu < 8) }
        ensures { vms_of self.new ≡ vms_by (Load slot vcpu cpu) (vms_of self.old) }
    {
        let old = self.slot(slot);
        self.put_slot(slot, old.with_load(vcpu, Some(cpu)));
    }

    /// No CPU has the slot's vCPU loaded.
    pub fn put(&mut self, slot: u64, vcpu: u64)
        requires { (slot < 64) × (vcpu < 8) }
        ensures { vms_of self.new ≡ vms_by (Unload slot vcpu) (vms_of self.old) }
    {
        let old = self.slot(slot);
        self.put_slot(slot, old.with_load(vcpu, None));
    }

    /// The slot becomes Closing.
    pub fn start_teardown(&mut self, slot: u64)
        requires { slot < 64 }
        ensures { vms_of self.new ≡ vms_by (Close slot) (vms_of self.old) }
    {
        let old = self.slot(slot);
        self.put_slot(
            slot,
            Slot {
                state: SlotState::Closing,
                ..old
            },
        );
    }

    /// The VM's slot becomes Vacant, with the generation after the VM's. Requires one below the greatest u64.
    pub fn finish(&mut self, vm: VmId)
        requires slot { vm.slot < 64 }
        requires generation { vm.generation + 1 < 2 ^ 64 }
        ensures { vms_of self.new ≡ vms_by (Release vm) (vms_of self.old) }
    {
        self.put_slot(vm.slot, Slot::empty(vm.generation + 1));
    }

    /// Changes a slot, or none. Requires a slot of the table, one of its vCPUs, and a generation below the greatest u64
    /// if it rises.
    pub fn change(&mut self, change: &SlotChange)
        requires { FitsTable change.now }
        ensures { vms_of self.new ≡ vms_by change.now (vms_of self.old) }
    {
        match *change {
            SlotChange::Keep => {}
            SlotChange::Reserve { slot, kind, vcpus } => self.reserve(slot, kind, vcpus),
            SlotChange::Open { slot } => self.open(slot),
            SlotChange::Close { slot } => self.start_teardown(slot),
            SlotChange::Release { vm } => self.finish(vm),
            SlotChange::Load { slot, vcpu, cpu } => self.load(slot, vcpu, cpu),
            SlotChange::Unload { slot, vcpu } => self.put(slot, vcpu),
        }
    }
}
