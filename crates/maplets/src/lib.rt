//! A finite map from pages to targets, kept as its coarsest list of runs.
#![tactic(auto)]

mod runs;

ghost use Rattle.std.specs.Prelude.{◌≡◌, ◌+◌, ◌^◌, ◌≤◌, [], All, IsOk, OnOk, OnErr, length};
ghost use Rattle.std.specs.Option.{ForSome};
ghost use Rattle.page_state.specs.Entries.{entry_of};
ghost use Rattle.page_state.specs.Map.{update};
ghost use Rattle.page_state.specs.Runs.{map_of, IsCoarsest};
ghost use Rattle.run_list.specs.Targets.{HasFrameBelow};
ghost use Rattle.maplets.specs.View.{IsInReach};

use page_state::{Page, PageRange, Target};
use run_list::RunList;
pub use runs::Runs;
use std::alloc::{AllocError, Global};
use std::marker::Model;

/// A map from pages to targets. In every state its runs are the coarsest list.
#[derive(Drop)]
pub struct Maplets {
    list: RunList<Target>,
}

impl Model for Maplets {
    ghost use Rattle.page_state.specs.Runs.{IsCoarsest};
    ghost use Rattle.maplets.specs.View.{KeptMaplets, target_runs};

    ghost Value = { KeptMaplets };

    ghost view = { λ m. record { runs = target_runs m.list.runs; room = m.list.room } };

    ghost invariant = { λ m. IsCoarsest (target_runs m.list.runs) };
}

impl Maplets {
    /// An empty map. It takes no memory.
    pub fn new(alloc: Global) -> Maplets
        ensures { result.runs ≡ [] }
    {
        Maplets {
            list: RunList::new(alloc),
        }
    }

    /// How many more runs the map can hold without taking memory.
    pub fn room(&self) -> usize
        ensures { result ≡ self.now.room }
    {
        self.list.room()
    }

    /// How many runs the map has.
    pub fn len(&self) -> usize
        ensures { result ≡ length self.now.runs }
    {
        self.list.runs().len()
    }

    /// Makes the room at least `extra`. A refusal changes nothing: runs and room are as they were.
    pub fn reserve(&mut self, extra: usize) -> Result<(), AllocError>
        ensures ok { OnOk result (extra ≤ self.new.room) }
        ensures succeeds { extra ≤ self.old.room → IsOk result }
        ensures runs { self.new.runs ≡ self.old.runs }
        ensures err { OnErr result (self.new ≡ self.old) }
        ensures err_runs { OnErr result (self.new.runs ≡ self.old.runs) }
        ensures err_room { OnErr result (self.new.room ≡ self.old.room) }
        ensures grows { self.old.room ≤ self.new.room }
    {
        self.list.reserve(extra)
    }

    /// Gives the pages of a range a target, which advances along it, or none. Requires room of two more runs, and takes
    /// no memory. The sum of room and runs stays.
    #[tactic(auto, using(crate::proofs::TargetRuns::coarsest_targets))]
    pub fn set(&mut self, range: PageRange, target: Option<Target>)
        requires pages { range.first.0 + range.count ≤ 2 ^ 63 }
        requires frames { ForSome target (λ t. HasFrameBelow t range.count) }
        requires room { 2 ≤ self.old.room }
        ensures map { map_of self.new.runs
            ≡ update (map_of self.old.runs) range.first.0 range.count (entry_of target) }
        ensures coarsest { IsCoarsest self.new.runs }
        ensures room { length self.new.runs + self.new.room ≡ length self.old.runs + self.old.room }
        ensures grows { length self.new.runs ≤ length self.old.runs + 2 }
    {
        self.list.set(range, target);
    }

    /// The target of a page.
    #[tactic(auto, using(crate::proofs::TargetRuns::map_targets))]
    pub fn at(&self, page: Page) -> Option<Target>
        ensures { entry_of result ≡ map_of self.now.runs page.0 }
    {
        self.list.at(page)
    }

    /// The runs, by page.
    pub fn iter(&self) -> Runs<'_>
        ensures runs { result ≡ self.now.runs }
        ensures coarsest { IsCoarsest self.now.runs }
        ensures reach { All IsInReach self.now.runs }
    {
        Runs::new(self.list.runs())
    }

    /// The runs are the coarsest list of their map. It does nothing, and its contract is the law.
    pub fn coarsest_now(&self)
        ensures { IsCoarsest self.now.runs }
    {
        let _ = &self.list;
    }
}
