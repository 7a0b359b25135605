//! What is kept, compared with what walking every descriptor finds.
ghost use Rattle.std.specs.Prelude.{◌≡◌, ◌↔◌, IfSome, IsTrue, None, length, map};
ghost use Rattle.ghost_judge.specs.Audits.{AuditAgrees, IsFirstDifference};
ghost use Rattle.ghost_oracle.specs.Compared.{walked_in};
ghost use Rattle.ghost_oracle.specs.Found.{HasSameMaplets};
ghost use Rattle.ghost_spec.specs.States.{contents_in};
ghost use Rattle.guest_component.specs.View.{runs_of};

use ghost_judge::audit::audit;
use ghost_judge::disagreement::Disagreement;
use ghost_spec::lists::GhostLists;
use ghost_spec::parts::GhostGuest;
use ghost_spec::shared::Shared;
use ghost_spec::state::Ghost;
use guest_component::Guest;
use hypercalls::Parts;
use maplets::Maplets;
use page_state::Run;
use part_types::{GuestPart, SharedPart};
use std::alloc::Allocator;

/// What is kept, and what walking every descriptor finds. Mostly one state is both, and then it is here once.
#[derive(Drop)]
pub struct Compared {
    /// What is kept.
    pub kept: Ghost,
    /// What walking finds. None if that is exactly the kept state.
    pub other: Option<Ghost>,
}

impl Compared {
    /// The first difference, in the order of `ghost_judge::audit`. Where one state is both, none is looked for.
    pub fn audit(&self) -> Option<Disagreement>
        ensures none { (result ≡ None) ↔ AuditAgrees (contents_in self.now.kept) (contents_in (walked_in self.now)) }
        ensures first { IfSome result
            (IsFirstDifference (contents_in self.now.kept) (contents_in (walked_in self.now))) }
    {
        match &self.other {
            Some(walked) => audit(&self.kept, walked),
            None => None,
        }
    }
}

/// Whether the runs that a walk found are those of maplets.
fn are_maplets(found: &[Run], maplets: &Maplets) -> bool
    ensures { IsTrue result ↔ (found.now ≡ maplets.now.runs) }
{
    let mut at = 0;
    for run in maplets.iter() {
        if at == found.len() || found[at] != run {
            return false;
        }
        at += 1;
    }
    at == found.len()
}

/// Whether a guest was found with the runs of its maplets.
fn is_guest_kept<A: Allocator>(found: &GhostGuest, guest: &Guest<A>) -> bool
    ensures { IsTrue result ↔ (found.now.tree.runs.items ≡ runs_of guest.now.body) }
{
    match guest.body() {
        Some(body) => are_maplets(found.tree.runs.as_slice(), body.map.maplets()),
        None => found.tree.runs.is_empty(),
    }
}

/// Whether all guests were.
fn are_guests_kept<A: Allocator>(found: &[GhostGuest], parts: &[GuestPart<A>]) -> bool
    requires { length found.now ≡ length parts.now }
    ensures { IsTrue result
        ↔ (map (λ x. x.tree.runs.items) found.now ≡ map (λ x. runs_of x.guest.body) parts.now) }
{
    for v in 0..parts.len() {
        if !is_guest_kept(&found[v], &parts[v].guest) {
            return false;
        }
    }
    true
}

/// Whether the Shared part was found with the runs of its maplets.
fn is_shared_kept<A: Allocator>(found: &Shared, part: &SharedPart<A>) -> bool
    ensures { IsTrue result ↔ (found.now.host.runs.items ≡ part.now.host.maplets.runs)
        × (found.now.hyp.runs.items ≡ part.now.hyp.maplets.runs) }
{
    are_maplets(found.host.runs.as_slice(), part.host.maplets())
        && are_maplets(found.hyp.runs.as_slice(), part.hyp.maplets())
}

/// Whether all parts were.
pub(crate) fn is_kept<A: Allocator>(found: &GhostLists, parts: &Parts<A>) -> bool
    requires { length found.now.guests.items ≡ 64 }
    ensures { IsTrue result ↔ HasSameMaplets parts.now found.now }
{
    is_shared_kept(&found.shared, &parts.shared)
        && are_guests_kept(found.guests.as_slice(), parts.guests.as_slice())
}
