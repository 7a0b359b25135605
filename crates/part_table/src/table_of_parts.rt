//! The table of the 66 parts: it is opened at the end of a legal history, gives each CPU its pass, and is closed once all
//! passes are back.
ghost use Rattle.std.specs.Prelude.{◌≡◌, ◌≢◌, ℕ, ◌<◌, ◌≤◌, [], ◌∷◌, ◌++◌, true, length, slice_get, IfOk};
ghost use Rattle.std.specs.Vec.{vec_capacity, vec_len};
ghost use Rattle.std.specs.Slots.{slots_items, slots_filled, slots_len, IsFull};
ghost use Rattle.part_table.specs.Endings.{AllHome, ForEach, Gives, HasEnd, HasJoined, HaveEnded, IsEndFor, IsEndIn, emptied_to, owns_of};
ghost use Rattle.part_table.specs.Parts.{parts};
ghost use Rattle.part_table.specs.Passes.{AreFirst, AreHomeFrom, IsPassOf, IsThere, Pass, first_pass, opened_as, opened_in};
ghost use Rattle.part_table.specs.Beginnings.{AreLeftFirst, begun_in, logs_in, own_in};
ghost use Rattle.part_table.specs.Rule.{IsRootOf, StaysRoot, all_made, one_more, rooted};

use crate::exchanges::{PartSeat, SlotTable};
use crate::gate::Gate;
use crate::maker::{Maker, Plain};
use crate::pass::CpuPass;
use crate::room::push_in_room;
use crate::rule::{Clash, Opening, Root};
use crate::slot::Slot;
use atomic_table::{Closed, Table};
use call_table::{Reply, Step};
use page_state::Layout;
use part_types::CpuState;
use std::alloc::{AllocError, Allocator, Global};
use std::marker::Model;
use std::snapshot::Snapshot;

/// The parts of a world under one table of words. Contracts see which table it is, and its layout.
#[derive(Drop)]
pub struct PartTable<A: Allocator> {
    table: SlotTable<A>,
    root: PartSeat<A>,
    alloc: A,
    layout: Layout,
}

impl<A: Allocator> Model for PartTable<A> {
    ghost use Rattle.part_table.specs.Passes.{IsReady, Opened};
    ghost use Rattle.part_table.specs.Beginnings.{begun_in};

    ghost Value = { Opened };

    ghost view = { λ t. record {
      table = t.table.shared.table_id;
      layout = t.layout;
      begun = begun_in t.table.shared.key;
    } };

    ghost invariant = { λ t. IsReady t.table.shared.table_id t.table.shared.key t.root.table_id t.root.id
        t.root.me t.layout };
}

/// The words and slots of the table.
fn new_table<A: Allocator>(
    global: Global,
    opening: &Opening<A>,
    slots: Vec<Option<Slot<A>>>,
) -> Result<(SlotTable<A>, PartSeat<A>), AllocError>
    requires end { IsEndIn opening.now.layout slots.items opening.now.owns.value.items }
    requires slots { opening.now.slots.value ≡ slots }
    ensures table { IfOk result
        (λ t. (t.0.shared.table_id.words ≡ parts)
        × (t.0.shared.table_id.slots ≡ parts)
        × (t.0.shared.key ≡ opening.now)) }
    ensures root { IfOk result
        (λ t. (t.1.table_id ≡ t.0.shared.table_id)
        × (t.1.id ≡ 0)
        × (t.1.me ≡ (rooted opening.now, []))) }
{
    let words = [0u64; 66];
    match Table::new(global, &words, slots, opening) {
        Ok(made) => Ok(made),
        Err(_) => Err(AllocError),
    }
}

/// The pass of the next CPU.
fn new_pass<A: Allocator>(table: &SlotTable<A>, root: &mut PartSeat<A>, own: CpuState) -> CpuPass<A>
    requires table { (root.old.table_id ≡ table.now.shared.table_id) × (table.now.shared.table_id.words ≡ parts) }
    requires root { (root.old.id ≡ 0)
        × (root.old.me.0.root ≡ true)
        × (root.old.me.0.made ≡ own.id)
        × (root.old.me.0.layout ≡ table.now.shared.key.layout) }
    requires begun { root.old.me.0.begun ≡ begun_in table.now.shared.key }
    requires known { own.id < table.now.shared.key.layout.config.cpus }
    requires left { AreLeftFirst A table.now.shared.key.layout (begun_in table.now.shared.key) }
    requires own { own ≡ own_in (begun_in table.now.shared.key) own.id }
    ensures root { (root.new.table_id ≡ root.old.table_id)
        × (root.new.id ≡ 0)
        × (root.new.me ≡ (one_more root.old.me.0, root.old.me.1)) }
    ensures pass { result ≡ first_pass (opened_in root.old.table_id table.now.shared.key) own.id }
{
    let seat = table.shared.split_seat::<Root>(root);
    CpuPass { seat, own }
}

/// A pass for each CPU, by number.
fn new_passes<A: Allocator>(
    table: &SlotTable<A>,
    root: &mut PartSeat<A>,
    mut owns: Vec<CpuState>,
    mut passes: Vec<Option<CpuPass<A>>>,
) -> Vec<Option<CpuPass<A>>>
    requires table { (root.old.table_id ≡ table.now.shared.table_id) × (table.now.shared.table_id.words ≡ parts) }
    requires root { (root.old.id ≡ 0) × (root.old.me ≡ (rooted table.now.shared.key, [])) }
    requires left { AreLeftFirst A table.now.shared.key.layout (begun_in table.now.shared.key) }
    requires count { vec_len owns ≡ table.now.shared.key.layout.config.cpus }
    requires owns { owns ≡ table.now.shared.key.owns.value }
    requires room { (passes.items ≡ []) × (vec_len owns ≤ vec_capacity passes) }
    ensures root { (root.new.table_id ≡ root.old.table_id)
        × (root.new.id ≡ 0)
        × (root.new.me ≡ (all_made table.now.shared.key, [])) }
    ensures passes { AreFirst (opened_in root.old.table_id table.now.shared.key) (vec_len owns) result.items }
{
    let count = owns.len();
    for _made in 0..count {
        let own = owns.remove(0);
        let pass = new_pass(table, root, own);
        push_in_room(&mut passes, Some(pass));
    }
    passes
}

impl<A: Allocator> PartTable<A> {
    /// A table of parts and CPUs' own states, which are the end of a legal history, and the passes of all CPUs, by
    /// number. `alloc` holds the tables of all trees.
    pub fn open(
        global: Global,
        alloc: A,
        layout: Layout,
        slots: Vec<Option<Slot<A>>>,
        owns: Vec<CpuState>,
    ) -> Result<(PartTable<A>, Vec<Option<CpuPass<A>>>), AllocError>
        requires end { IsEndIn layout slots.items owns.items }
        ensures layout { IfOk result (λ t. t.0.layout ≡ layout) }
        ensures begun { IfOk result (λ t. t.0.begun ≡ record { logs = logs_in slots.items; owns = owns.items }) }
        ensures passes { IfOk result (λ t. AreFirst t.0 layout.config.cpus t.1.items) }
    {
        let count = owns.len();
        let Ok(passes) = Vec::with_capacity(global, count) else {
            return Err(AllocError);
        };
        let opening = Opening {
            layout,
            slots: Snapshot::of(&slots),
            owns: Snapshot::of(&owns),
        };
        let Ok((table, mut root)) = new_table(global, &opening, slots) else {
            return Err(AllocError);
        };
        let passes = new_passes(&table, &mut root, owns, passes);
        let Opening { layout, .. } = opening;
        let table = PartTable {
            table,
            root,
            alloc,
            layout,
        };
        Ok((table, passes))
    }

    /// Two passes of a table are of different CPUs. It ends both.
    pub fn apart(&self, one: CpuPass<A>, other: CpuPass<A>)
        requires passes { IsPassOf self.now one × IsPassOf self.now other }
        ensures { one.knows.cpu ≢ other.knows.cpu }
    {
        let _ = &self.root;
        clash(&self.table, one, other);
    }

    /// The parts, by number, and the CPUs' own states, at the end of the one legal history. Each CPU's own state, with its
    /// calls, is that of its pass, and each part's log begins with what each pass has seen of it. Requires the passes of
    /// all CPUs, by number, and for room in both lists, which it fills.
    pub fn close(
        self,
        passes: Vec<Option<CpuPass<A>>>,
        found: Vec<Slot<A>>,
        cpus: Vec<CpuState>,
    ) -> (A, Layout, Vec<Slot<A>>, Vec<CpuState>)
        requires count { vec_len passes ≡ self.layout.config.cpus }
        requires home { AreHomeFrom self.table (vec_len passes) 0 passes.items }
        requires room { (cpus.items ≡ [])
            × (vec_len passes ≤ vec_capacity cpus)
            × (found.items ≡ [])
            × (parts ≤ vec_capacity found) }
        ensures layout { result.1 ≡ self.layout }
        ensures end { IsEndFor self result.2.items result.3.items (ForEach passes.items) }
    {
        let PartTable {
            table,
            root,
            alloc,
            layout,
        } = self;
        let (found, cpus) = end(table, root, passes, found, cpus);
        (alloc, layout, found, cpus)
    }

    /// Closes the table, and drops the parts and the CPUs' own states, which stand at the end of the one legal history. It
    /// takes no memory.
    pub fn drop_with(self, passes: Vec<Option<CpuPass<A>>>)
        requires count { vec_len passes ≡ self.layout.config.cpus }
        requires home { AreHomeFrom self.table (vec_len passes) 0 passes.items }
        ensures { HasEnd A self passes.items }
    {
        let PartTable {
            table,
            root,
            alloc,
            layout,
        } = self;
        drop(alloc);
        drop(layout);
        drop_all(table, root, passes);
    }
}

impl<A: Allocator + Copy> PartTable<A> {
    ghost use Rattle.std.specs.Prelude.{◌≡◌, ◌+◌, [], length};
    ghost use Rattle.reference_model.specs.model.History.{IsStored};
    ghost use Rattle.part_table.specs.Answered.{Answers};
    ghost use Rattle.part_table.specs.Made.{IsMade};
    ghost use Rattle.part_table.specs.Passes.{IsPassOf};

    /// One try of a step, which waits for nobody. `taken` of the gate is called in it, and `answered` isn't.
    pub fn try_step<G: Gate>(&self, gate: &G, pass: &mut CpuPass<A>, step: Step) -> Reply
        requires pass { IsPassOf self.now pass.old }
        ensures pass { IsPassOf self.now pass.new }
        ensures cpu { pass.new.knows.cpu ≡ pass.old.knows.cpu }
        ensures rest { pass.new.holds ≡ [] }
        ensures answers { Answers step result pass.old.knows pass.new.knows }
        ensures heard { IsStored result
            → G.heard_taken gate.now pass.old.knows.cpu
            (length pass.old.knows.own.log.calls + 1) }
    {
        self.try_step_by(gate, &Plain, pass, step, &mut ())
    }

    /// The same with a maker that makes the step, once, if the call is stored; otherwise it reports nothing.
    pub fn try_step_by<T, G: Gate, M: Maker<T, G>>(
        &self,
        gate: &G,
        maker: &M,
        pass: &mut CpuPass<A>,
        step: Step,
        told: &mut T,
    ) -> Reply
        requires pass { IsPassOf self.now pass.old }
        ensures pass { IsPassOf self.now pass.new }
        ensures cpu { pass.new.knows.cpu ≡ pass.old.knows.cpu }
        ensures rest { pass.new.holds ≡ [] }
        ensures answers { Answers step result pass.old.knows pass.new.knows }
        ensures heard { IsStored result
            → G.heard_taken gate.now pass.old.knows.cpu
            (length pass.old.knows.own.log.calls + 1) }
        ensures made { IsStored result
            → IsMade {A = A} M.tells step result pass.old.knows pass.new.knows told.old told.new }
        ensures untold { (IsStored result → ⊥) → told.new ≡ told.old }
    {
        let _ = &self.root;
        pass.try_step(
            gate,
            maker,
            &self.table,
            self.alloc,
            &self.layout,
            step,
            told,
        )
    }
}

/// Two passes of one CPU can't be had: the rule has a seat for each CPU alone.
fn clash<A: Allocator>(table: &SlotTable<A>, one: CpuPass<A>, other: CpuPass<A>)
    requires table { (one.table ≡ table.now.shared.table_id)
        × (other.table ≡ table.now.shared.table_id)
        × (table.now.shared.table_id.words ≡ parts) }
    ensures { one.knows.cpu ≢ other.knows.cpu }
{
    if one.own.id != other.own.id {
        return;
    }
    let mut seat = one.seat;
    let spent = other.seat;
    table.shared.join_seat::<Clash>(&mut seat, spent);
    table.shared.load::<Clash>(&mut seat, 0);
}

/// The pass of the next CPU is joined: its own state.
fn join_one<A: Allocator>(
    table: &SlotTable<A>,
    root: &mut PartSeat<A>,
    passes: &mut Vec<Option<CpuPass<A>>>,
    cpu: usize,
) -> CpuState
    requires table { (root.old.table_id ≡ table.now.shared.table_id) × (table.now.shared.table_id.words ≡ parts) }
    requires root { (root.old.id ≡ 0)
        × (root.old.me.0.root ≡ true)
        × (length root.old.me.0.ended ≡ cpu)
        × (cpu < root.old.me.0.made) }
    requires inside { cpu < vec_len passes.old }
    requires there { IsThere root.old.table_id passes.old.items cpu }
    ensures root { StaysRoot root.old.table_id root.old.me root.new.table_id root.new.id root.new.me }
    ensures hand { root.new.me.1 ≡ root.old.me.1 }
    ensures ended { (p : Pass)
        → slice_get passes.old.items cpu ≡ Some (Some p)
        → HasJoined p root.old.me.0.ended root.new.me.0.ended result }
    ensures others { (j : ℕ) → j ≢ cpu → slice_get passes.new.items j ≡ slice_get passes.old.items j }
    ensures count { vec_len passes.new ≡ vec_len passes.old }
{
    let pass = passes[cpu].take().unwrap();
    let CpuPass { seat, own } = pass;
    table.shared.join_seat::<Root>(root, seat);
    own
}

/// All passes are joined, in the order of their CPUs.
fn join_all<A: Allocator>(
    table: &SlotTable<A>,
    root: &mut PartSeat<A>,
    mut passes: Vec<Option<CpuPass<A>>>,
    mut cpus: Vec<CpuState>,
) -> Vec<CpuState>
    requires table { (root.old.table_id ≡ table.now.shared.table_id) × (table.now.shared.table_id.words ≡ parts) }
    requires root { IsRootOf (vec_len passes) root.old.id root.old.me }
    requires home { AreHomeFrom root.old.table_id (vec_len passes) 0 passes.items }
    requires room { (cpus.items ≡ []) × (vec_len passes ≤ vec_capacity cpus) }
    ensures root { StaysRoot root.old.table_id root.old.me root.new.table_id root.new.id root.new.me }
    ensures ended { HaveEnded root.old.me.0.made passes.items root.new.me.0.ended result.items }
{
    let count = passes.len();
    for cpu in 0..count {
        let own = join_one(table, root, &mut passes, cpu);
        push_in_room(&mut cpus, own);
    }
    cpus
}

/// The same, but it drops the CPUs' own states.
fn join_each<A: Allocator>(
    table: &SlotTable<A>,
    root: &mut PartSeat<A>,
    mut passes: Vec<Option<CpuPass<A>>>,
)
    requires table { (root.old.table_id ≡ table.now.shared.table_id) × (table.now.shared.table_id.words ≡ parts) }
    requires root { IsRootOf (vec_len passes) root.old.id root.old.me }
    requires home { AreHomeFrom root.old.table_id (vec_len passes) 0 passes.items }
    ensures root { StaysRoot root.old.table_id root.old.me root.new.table_id root.new.id root.new.me }
    ensures ended { HaveEnded root.old.me.0.made passes.items root.new.me.0.ended (owns_of root.new.me.0.ended) }
{
    let count = passes.len();
    for cpu in 0..count {
        drop(join_one(table, root, &mut passes, cpu));
    }
}

/// The part of each slot, in order.
fn collect<A: Allocator>(
    closed: &mut Closed<Option<Slot<A>>, Global>,
    mut found: Vec<Slot<A>>,
) -> Vec<Slot<A>>
    requires full { IsFull closed.old.slots × (slots_len closed.old.slots ≡ parts) }
    requires home { AllHome (slots_items closed.old.slots) }
    requires room { (found.items ≡ []) × (parts ≤ vec_capacity found) }
    ensures gives { Gives parts (slots_items closed.old.slots) result.items }
    ensures emptied { (slots_len closed.new.slots ≡ parts) × emptied_to parts (slots_filled closed.new.slots) }
{
    for k in 0..66usize {
        let part = closed.take(k).unwrap();
        push_in_room(&mut found, part);
    }
    found
}

/// Drops the part of each slot.
fn empty<A: Allocator>(closed: &mut Closed<Option<Slot<A>>, Global>)
    requires { IsFull closed.old.slots × (slots_len closed.old.slots ≡ parts) }
    ensures { (slots_len closed.new.slots ≡ parts) × emptied_to parts (slots_filled closed.new.slots) }
{
    for k in 0..66usize {
        drop(closed.take(k));
    }
}

/// Joins all passes, and drops all parts.
fn drop_all<A: Allocator>(
    table: SlotTable<A>,
    mut root: PartSeat<A>,
    passes: Vec<Option<CpuPass<A>>>,
)
    requires table { (root.table_id ≡ table.shared.table_id)
        × (table.shared.table_id.words ≡ parts)
        × (table.shared.table_id.slots ≡ parts) }
    requires root { IsRootOf (vec_len passes) root.id root.me }
    requires all { vec_len passes ≡ table.shared.key.layout.config.cpus }
    requires home { AreHomeFrom root.table_id (vec_len passes) 0 passes.items }
    ensures { HasEnd A (opened_as root.table_id table.shared.key.layout root.me.0.begun) passes.items }
{
    join_each(&table, &mut root, passes);
    let mut closed = table.close_with(root);
    empty(&mut closed);
    closed.free();
}

/// Joins all passes, and closes the table.
fn end<A: Allocator>(
    table: SlotTable<A>,
    mut root: PartSeat<A>,
    passes: Vec<Option<CpuPass<A>>>,
    found: Vec<Slot<A>>,
    cpus: Vec<CpuState>,
) -> (Vec<Slot<A>>, Vec<CpuState>)
    requires table { (root.table_id ≡ table.shared.table_id)
        × (table.shared.table_id.words ≡ parts)
        × (table.shared.table_id.slots ≡ parts) }
    requires root { IsRootOf (vec_len passes) root.id root.me }
    requires all { vec_len passes ≡ table.shared.key.layout.config.cpus }
    requires home { AreHomeFrom root.table_id (vec_len passes) 0 passes.items }
    requires room { (cpus.items ≡ [])
        × (vec_len passes ≤ vec_capacity cpus)
        × (found.items ≡ [])
        × (parts ≤ vec_capacity found) }
    ensures { IsEndFor
        (opened_as root.table_id table.shared.key.layout root.me.0.begun) result.0.items
        result.1.items
        (ForEach passes.items) }
{
    let cpus = join_all(&table, &mut root, passes, cpus);
    let mut closed = table.close_with(root);
    let found = collect(&mut closed, found);
    closed.free();
    (found, cpus)
}
