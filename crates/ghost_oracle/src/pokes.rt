//! Pokes: a word of a tree is set, and all else stays. They take no memory but what `no_pokes` took.
ghost use Rattle.std.specs.Prelude.{◌≡◌, ◌↔◌, ℕ, [], IsSome, IsOk, IfOk, IfErr, None, replicate, vec_len};
ghost use Rattle.page_state.specs.declared.layout.Geometry.{Geometry as TreeGeometry};
ghost use Rattle.page_state.specs.Geometries.{levels_below};
ghost use Rattle.table_tree.specs.Said.{block_of};
ghost use Rattle.ghost_oracle.specs.declared.raw.Which.{Which as WhichTree};
ghost use Rattle.ghost_oracle.specs.Beside.{body_beside, raw_beside, slot_guest, slot_beside, taken_beside, IsSlotOf, AreSlotsOf};
ghost use Rattle.ghost_oracle.specs.Poked.{ArePartsPoked, IsBeside, IsPlacePoked, IsPokedSeen, IsRawPoked, IsSlotPoked, parts_trees, part_beside, raw_beside_of, raw_trees, shared_beside, guest_seen, guest_beside};
ghost use Rattle.ghost_oracle.specs.Seen.{raw_seen, slot_seen, taken_seen, tree_seen};

use crate::raw::{RawComponent, RawGuest, RawParts, RawShared, Which};
use component::Component;
use guest_component::Body;
use hypercalls::Parts;
use part_types::{GuestPart, SharedPart};
use std::alloc::{AllocError, Allocator, Global};
use table_tree::PathFault;

/// A component whose tree may be poked.
fn raw_component<A: Allocator>(component: Component<A>) -> RawComponent<A>
    ensures seen { raw_seen result.tree ≡ tree_seen component.tree }
    ensures maplets { result.maplets ≡ component.maplets }
    ensures geometry { result.tree.geometry ≡ component.tree.geometry }
{
    let Component { tree, maplets } = component;
    RawComponent {
        tree: tree.into_raw(),
        maplets,
    }
}

/// A guest whose tree may be poked.
fn raw_guest<A: Allocator>(body: Body<A>) -> RawGuest<A>
    ensures seen { raw_seen result.map.tree ≡ tree_seen body.map.tree }
    ensures beside { raw_beside result ≡ body_beside body }
    ensures geometry { result.map.tree.geometry ≡ body.map.tree.geometry }
{
    let Body {
        phase,
        generation,
        kind,
        map,
        pool,
    } = body;
    RawGuest {
        phase,
        generation,
        kind,
        map: raw_component(map),
        pool,
    }
}

/// A Shared part whose trees may be poked.
fn raw_shared<A: Allocator>(part: SharedPart<A>) -> RawShared<A>
    ensures host { raw_seen result.host.tree ≡ tree_seen part.host.tree }
    ensures hyp { raw_seen result.hyp.tree ≡ tree_seen part.hyp.tree }
    ensures beside { shared_beside result ≡ part_beside part }
    ensures host_depth { levels_below result.host.tree.geometry ≡ levels_below part.host.tree.geometry }
    ensures hyp_depth { levels_below result.hyp.tree.geometry ≡ levels_below part.host.tree.geometry }
{
    let SharedPart {
        host,
        hyp,
        pool,
        owners,
        log,
    } = part;
    RawShared {
        host: raw_component(host),
        hyp: raw_component(hyp),
        pool,
        owners,
        log,
    }
}

/// The places of guests that are poked, one for each slot, with nothing in them. All memory that pokes need is taken here.
pub fn no_pokes<A: Allocator>(alloc: Global) -> Result<Vec<Option<RawGuest<A>>>, AllocError>
    ensures { IfOk result (λ v. v.items ≡ replicate 64 None) }
{
    let mut poked = Vec::with_capacity(alloc, 64)?;
    for _ in 0..64usize {
        poked.push(None)?;
    }
    Ok(poked)
}

/// The parts as ones whose trees may be poked. No word changes.
pub fn raw_parts<A: Allocator>(parts: Parts<A>, poked: Vec<Option<RawGuest<A>>>) -> RawParts<A>
    requires nothing { poked.items ≡ replicate 64 None }
    ensures trees { (which : WhichTree) → raw_trees result which ≡ parts_trees parts which }
    ensures beside { IsBeside parts (raw_beside_of result) }
    ensures layout { result.layout ≡ parts.layout }
{
    let Parts {
        layout,
        vms,
        shared,
        guests,
        cpus,
    } = parts;
    RawParts {
        layout,
        vms,
        shared: raw_shared(shared),
        guests,
        poked,
        cpus,
    }
}

/// The word at a path of a slot's tree.
fn slot_word<A: Allocator>(
    part: &GuestPart<A>,
    held: &Option<RawGuest<A>>,
    path: &[u16],
) -> Option<u64>
    ensures { result ≡ (slot_seen part.now held.now).words path.now }
{
    match held {
        Some(guest) => guest.map.tree.word_at(path),
        None => match &part.guest.body {
            Some(body) => body.map.tree.word_at(path),
            None => None,
        },
    }
}

/// Takes the guest out of a slot; None if the slot is Empty.
fn take_guest<A: Allocator>(
    part: &mut GuestPart<A>,
    held: &mut Option<RawGuest<A>>,
) -> Option<RawGuest<A>>
    ensures seen { taken_seen result ≡ slot_seen part.old held.old }
    ensures beside { taken_beside result ≡ slot_guest part.old held.old }
    ensures depth { (g : TreeGeometry) → IsSlotOf g part.old held.old → IsSlotOf g part.new result }
    ensures log { part.new.log ≡ part.old.log }
{
    if let Some(guest) = held.take() {
        return Some(guest);
    }
    let guest = &mut part.guest;
    match guest.body.take() {
        Some(body) => Some(raw_guest(body)),
        None => None,
    }
}

/// Sets the word at a path of a slot's tree.
fn set_slot<A: Allocator>(
    part: &mut GuestPart<A>,
    held: &mut Option<RawGuest<A>>,
    path: &[u16],
    word: u64,
)
    requires there { IsSome ((slot_seen part.old held.old).words path.now) }
    ensures poked { IsSlotPoked part.old held.old part.new held.new path.now word }
    ensures beside { slot_beside part.new held.new ≡ slot_beside part.old held.old }
    ensures depth { (g : TreeGeometry) → IsSlotOf g part.old held.old → IsSlotOf g part.new held.new }
{
    if let Some(guest) = take_guest(part, held) {
        let mut guest = guest;
        guest.map.set(path, word);
        *held = Some(guest);
    }
}

/// Sets the word at a path of a guest's tree, by the guest's slot. The path must have a word.
fn set_place<A: Allocator>(
    guests: &mut Vec<GuestPart<A>>,
    poked: &mut Vec<Option<RawGuest<A>>>,
    slot: u64,
    path: &[u16],
    word: u64,
)
    requires slots { vec_len guests.old ≡ 64 }
    requires places { vec_len poked.old ≡ 64 }
    requires there { IsSome ((guest_seen guests.old.items poked.old.items slot).words path.now) }
    ensures poked { IsPlacePoked slot guests.old.items poked.old.items guests.new.items poked.new.items
        path.now word }
    ensures others { (v : ℕ)
        → (v ≡ slot → ⊥)
        → guest_seen guests.new.items poked.new.items v
        ≡ guest_seen guests.old.items poked.old.items v }
    ensures beside { (v : ℕ)
        → guest_beside guests.new.items poked.new.items v
        ≡ guest_beside guests.old.items poked.old.items v }
    ensures depth { (g : TreeGeometry)
        → AreSlotsOf g guests.old.items poked.old.items
        → AreSlotsOf g guests.new.items poked.new.items }
    ensures slots { vec_len guests.new ≡ 64 }
    ensures places { vec_len poked.new ≡ 64 }
{
    let place = slot as usize;
    set_slot(&mut guests[place], &mut poked[place], path, word);
}

impl<A: Allocator> RawComponent<A> {
    ghost use Rattle.table_tree.specs.RawView.{raw_word_of};

    /// Sets the word at a path that has one.
    fn set(&mut self, path: &[u16], word: u64)
        requires there { IsSome (raw_word_of self.old.tree path.now) }
        ensures poked { IsPokedSeen (block_of self.old.tree.geometry path.now) (raw_seen self.old.tree)
            (raw_seen self.new.tree) path.now word }
        ensures maplets { self.new.maplets ≡ self.old.maplets }
        ensures geometry { self.new.tree.geometry ≡ self.old.tree.geometry }
    {
        self.tree.set(path, word);
    }
}

impl<A: Allocator> RawParts<A> {
    /// The word at a path of a tree; None if the path has no word.
    pub fn word_at(&self, which: Which, path: &[u16]) -> Option<u64>
        ensures { result ≡ (raw_trees self.now which).words path.now }
    {
        match which {
            Which::Host => self.shared.host.tree.word_at(path),
            Which::Hyp => self.shared.hyp.tree.word_at(path),
            Which::Guest(slot) => self.guest_word(slot, path),
        }
    }

    /// The same of a guest's tree; no slot is past the 64th.
    fn guest_word(&self, slot: u64, path: &[u16]) -> Option<u64>
        ensures { result ≡ (guest_seen self.now.guests.items self.now.poked.items slot).words path.now }
    {
        let place = slot as usize;
        let part = self.guests.get(place)?;
        let held = self.poked.get(place)?;
        slot_word(part, held, path)
    }

    /// Sets the word at a path of a tree, and changes nothing else. It answers PathFault if the path has no word, and
    /// then changes nothing.
    // Poked trees have a type of their own, which makes no step: docs/DECISIONS.md, 25.
    pub fn poke(
        self,
        which: Which,
        path: &[u16],
        word: u64,
    ) -> Result<RawParts<A>, (RawParts<A>, PathFault)>
        ensures fault { IsOk result ↔ IsSome ((raw_trees self which).words path.now) }
        ensures kept { IfErr result (λ e. e.0 ≡ self) }
        ensures poked { IfOk result (λ p. IsRawPoked self p which path.now word) }
        ensures beside { IfOk result (λ p. raw_beside_of p ≡ raw_beside_of self) }
    {
        if self.word_at(which, path).is_none() {
            return Err((self, PathFault));
        }
        let mut parts = self;
        parts.set(which, path, word);
        Ok(parts)
    }

    /// Sets the word at a path in place. The path must have a word.
    pub fn set(&mut self, which: Which, path: &[u16], word: u64)
        requires there { IsSome ((raw_trees self.old which).words path.now) }
        ensures poked { IsRawPoked self.old self.new which path.now word }
        ensures beside { raw_beside_of self.new ≡ raw_beside_of self.old }
    {
        match which {
            Which::Host => self.set_host(path, word),
            Which::Hyp => self.set_hyp(path, word),
            Which::Guest(slot) => self.set_guest(slot, path, word),
        }
    }

    fn set_host(&mut self, path: &[u16], word: u64)
        requires there { IsSome ((raw_seen self.old.shared.host.tree).words path.now) }
        ensures poked { IsRawPoked self.old self.new WhichTree.Host path.now word }
        ensures beside { raw_beside_of self.new ≡ raw_beside_of self.old }
    {
        let shared = &mut self.shared;
        shared.host.set(path, word);
    }

    fn set_hyp(&mut self, path: &[u16], word: u64)
        requires there { IsSome ((raw_seen self.old.shared.hyp.tree).words path.now) }
        ensures poked { IsRawPoked self.old self.new WhichTree.Hyp path.now word }
        ensures beside { raw_beside_of self.new ≡ raw_beside_of self.old }
    {
        let shared = &mut self.shared;
        shared.hyp.set(path, word);
    }

    fn set_guest(&mut self, slot: u64, path: &[u16], word: u64)
        requires there { IsSome ((guest_seen self.old.guests.items self.old.poked.items slot).words path.now) }
        ensures poked { IsRawPoked self.old self.new (WhichTree.Guest slot) path.now word }
        ensures beside { raw_beside_of self.new ≡ raw_beside_of self.old }
    {
        set_place(&mut self.guests, &mut self.poked, slot, path, word);
    }
}

/// The word at a path of a tree of parts; None if the path has no word.
fn parts_word<A: Allocator>(parts: &Parts<A>, which: Which, path: &[u16]) -> Option<u64>
    ensures { result ≡ (parts_trees parts.now which).words path.now }
{
    match which {
        Which::Host => parts.shared.host.tree.word_at(path),
        Which::Hyp => parts.shared.hyp.tree.word_at(path),
        Which::Guest(slot) => guest_word(parts, slot, path),
    }
}

/// The same of a guest's tree; no slot is past the 64th.
fn guest_word<A: Allocator>(parts: &Parts<A>, slot: u64, path: &[u16]) -> Option<u64>
    ensures { result ≡ (guest_seen parts.now.guests.items [] slot).words path.now }
{
    let part = parts.guests.get(slot as usize)?;
    slot_word(part, &None, path)
}

/// Sets the word at a path of a tree of parts, and changes nothing else. It answers PathFault if the path has no word,
/// and then changes nothing.
pub fn poke<A: Allocator>(
    parts: Parts<A>,
    poked: Vec<Option<RawGuest<A>>>,
    which: Which,
    path: &[u16],
    word: u64,
) -> Result<RawParts<A>, (Parts<A>, PathFault)>
    requires nothing { poked.items ≡ replicate 64 None }
    ensures fault { IsOk result ↔ IsSome ((parts_trees parts which).words path.now) }
    ensures kept { IfErr result (λ e. e.0 ≡ parts) }
    ensures poked { IfOk result (λ p. ArePartsPoked parts p which path.now word) }
    ensures beside { IfOk result (λ p. IsBeside parts (raw_beside_of p)) }
{
    if parts_word(&parts, which, path).is_none() {
        return Err((parts, PathFault));
    }
    let mut raw = raw_parts(parts, poked);
    raw.set(which, path, word);
    Ok(raw)
}
