//! A world some of whose words were poked. It makes no step any more.
ghost use Rattle.std.specs.Prelude.{◌≡◌, ◌↔◌, ℕ, IfErr, IfOk, IsOk, IsSome};
ghost use Rattle.page_state.specs.LayoutView.{layout_of};
ghost use Rattle.ghost_spec.specs.States.{contents_in};
ghost use Rattle.ghost_judge.specs.Audits.{AreMapsKept};
ghost use Rattle.ghost_oracle.specs.Found.{scratch_rows, HasRowsOf};
ghost use Rattle.ghost_oracle.specs.Poked.{IsRawPoked, raw_beside_of, raw_trees};
ghost use Rattle.ghost_oracle.specs.RawFound.{IsRawFound, HasSameRawRows};
ghost use Rattle.ghost_oracle.specs.declared.trees.Source.TheVariants.{Maplets, Words};

use ghost_oracle::raw::{RawParts, Which};
use ghost_oracle::raw_kept::{kept_raw, recompute_raw};
use ghost_spec::lists::GhostLists;
use page_state::Geometry;
use std::alloc::{AllocError, Allocator, Global};
use table_tree::PathFault;

/// A world whose tables may hold any words.
#[derive(Drop)]
pub struct RawWorld<A: Allocator> {
    pub parts: RawParts<A>,
}

impl<A: Allocator> RawWorld<A> {
    /// The geometry of its trees.
    pub fn geometry(&self) -> Geometry
        ensures { result ≡ self.now.parts.layout.geometry }
    {
        self.parts.layout.geometry
    }

    /// Sets a further word, as `World::poke` does.
    pub fn poke(
        self,
        which: Which,
        path: &[u16],
        word: u64,
    ) -> Result<RawWorld<A>, (RawWorld<A>, PathFault)>
        ensures fault { IsOk result ↔ IsSome ((raw_trees self.parts which).words path.now) }
        ensures kept { IfErr result (λ e. e.0 ≡ self) }
        ensures poked { IfOk result (λ w. IsRawPoked self.parts w.parts which path.now word) }
        ensures beside { IfOk result (λ w. raw_beside_of w.parts ≡ raw_beside_of self.parts) }
    {
        let RawWorld { parts } = self;
        match parts.poke(which, path, word) {
            Ok(parts) => Ok(RawWorld { parts }),
            Err((parts, fault)) => Err((RawWorld { parts }, fault)),
        }
    }

    /// What the world keeps beside its words: maplets and owner rows, which no poke changes.
    pub fn to_ghost(&self, global: Global) -> Result<GhostLists, AllocError>
        ensures found { IfOk result (IsRawFound Maplets self.now.parts) }
        ensures rows { IfOk result (HasSameRawRows self.now.parts) }
        ensures frames { IfOk result (HasRowsOf (layout_of self.now.parts.layout)) }
        ensures ready { IfOk result AreMapsKept }
    {
        kept_raw(global, &self.parts)
    }

    /// What walking every word from scratch finds, malformed words among them.
    pub fn recompute(&self, global: Global) -> Result<GhostLists, AllocError>
        ensures found { IfOk result (IsRawFound Words self.now.parts) }
        ensures rows { IfOk result
            (λ g. (f : ℕ)
            → (contents_in g).shared.row f
            ≡ scratch_rows (layout_of self.now.parts.layout) (contents_in g) f) }
        ensures frames { IfOk result (HasRowsOf (layout_of self.now.parts.layout)) }
        ensures ready { IfOk result AreMapsKept }
    {
        recompute_raw(global, &self.parts)
    }
}
