//! The world: memory, its trees and maplets, and the CPUs that make steps on it one after another.
#![tactic(auto)]

ghost use Rattle.std.specs.Prelude.{◌≡◌, ◌<◌, All, IfOk, OnErr, MatchResult, length};
ghost use Rattle.hypercalls.specs.Stands.{HasHistory};
ghost use Rattle.hypercalls.specs.Whole.{IsStep};
ghost use Rattle.hypercalls.specs.Booted.{IsBooted};
ghost use Rattle.world.specs.Boots.{IsNoBoot};
ghost use Rattle.world.specs.Headline.{Headline};

mod boot;
mod histories;
pub mod laws;
mod lent;
mod merge;
mod raw;

pub use boot::BootFault;
use call_table::{Reply, Step};
use ghost_judge::disagreement::Disagreement;
use ghost_oracle::compared::Compared;
use ghost_oracle::kept::{kept, kept_and_walked, recompute};
use ghost_oracle::pokes::poke;
use ghost_oracle::raw::RawGuest;
pub use ghost_oracle::raw::Which;
use ghost_spec::state::Ghost;
use hypercalls::Parts;
pub use hypercalls::{UsedParts, uses};
pub use lent::step_on;
pub use merge::{Histories, MergeFault};
use page_state::{Config, Geometry, MemoryMap};
pub use raw::RawWorld;
use std::alloc::{AllocError, Allocator, Global};
use table_tree::{PathFault, Reads};

/// A booted world, at the end of one legal history. `A` allocates the tables of all trees.
#[derive(Drop)]
pub struct World<A: Allocator> {
    alloc: A,
    pub parts: Parts<A>,
    pub ghost history: { ∥ HasHistory parts ∥₁ },
}

impl<A: Allocator + Copy> World<A> {
    /// Boots a world on accepted memory. The tests, in their order: the configuration, that the carve-out has
    /// a frame for each table, and memory for trees, maplets, rows and logs.
    pub fn boot(
        global: Global,
        alloc: A,
        map: &MemoryMap,
        config: Config,
    ) -> Result<World<A>, BootFault>
        ensures { MatchResult result (λ w. IsBooted map.now config w.parts)
            (λ fault. IsNoBoot fault map.now config) }
    {
        let parts = boot::booted(global, alloc, map, config)?;
        Ok(World { alloc, parts })
    }

    /// Makes one step of a CPU, and stores it in the logs of the CPU and of the parts that it uses, unless one of these
    /// is full.
    pub fn step(&mut self, cpu: u64, step: Step) -> Reply
        requires known { cpu < self.old.parts.layout.config.cpus }
        ensures layout { self.new.parts.layout ≡ self.old.parts.layout }
        ensures step { IsStep self.old.parts cpu step result self.new.parts }
    {
        self.parts.step(self.alloc, cpu, step)
    }

    /// Makes steps, one after another, and gives a reply for each. It takes the memory of the replies first, and makes
    /// no step if that is refused.
    pub fn run(&mut self, global: Global, steps: &[(u64, Step)]) -> Result<Vec<Reply>, AllocError>
        requires known { All (λ s. s.0 < self.old.parts.layout.config.cpus) steps.now }
        ensures headline { IfOk result (λ replies. Headline self.old.parts steps.now replies.items self.new.parts) }
        ensures count { IfOk result (λ replies. length replies.items ≡ length steps.now) }
        ensures refused { OnErr result (self.new.parts ≡ self.old.parts) }
    {
        let mut replies = Vec::with_capacity(global, steps.len())?;
        for asked in steps {
            let reply = self.make(asked);
            replies.push(reply).unwrap();
        }
        Ok(replies)
    }

    /// Makes one step of a list.
    fn make(&mut self, asked: &(u64, Step)) -> Reply
        requires known { asked.now.0 < self.old.parts.layout.config.cpus }
        ensures layout { self.new.parts.layout ≡ self.old.parts.layout }
        ensures step { IsStep self.old.parts asked.now.0 asked.now.1 result self.new.parts }
    {
        let (cpu, step) = *asked;
        self.step(cpu, step)
    }
}

impl<A: Allocator> World<A> {
    ghost use Rattle.std.specs.Prelude.{◌↔◌, IfErr, IsOk, IsSome, List, None, OnOk, replicate};
    ghost use Rattle.page_state.specs.LayoutView.{layout_of};
    ghost use Rattle.table_tree.specs.Reading.{count_of};
    ghost use Rattle.ghost_oracle.specs.Compared.{IsCompared, walked_in};
    ghost use Rattle.ghost_oracle.specs.Counted.{HasRead, tables_of_parts};
    ghost use Rattle.ghost_oracle.specs.Poked.{ArePartsPoked, IsBeside, parts_trees, raw_beside_of};
    ghost use Rattle.ghost_spec.specs.States.{ghost_state};
    ghost use Rattle.ghost_oracle.specs.Found.{walked_state, HasRowsOf, HasSameMaplets, HasSameRows};
    ghost use Rattle.hypercalls.specs.Stands.{kept_of, parts_layout, state_of};
    ghost use Rattle.call_table.specs.declared.reply.Call.{Call};
    ghost use Rattle.world.specs.Merges.{AreLogsOf, IsMerged, IsOfHistory, ReportsMerged};
    ghost use Rattle.world.specs.declared.merge.MergeFault.TheVariants.{NoOrder};

    /// A copy of all logs: of the VM part, the Shared part, the 64 guests and each CPU. They are those of one legal history, so
    /// `merge` finds their order. Where memory is refused the world is as it was.
    pub fn histories(&self, global: Global) -> Result<Histories, AllocError>
        ensures logs { IfOk result (λ h. AreLogsOf h (parts_layout self.now.parts) (kept_of self.now.parts)) }
        ensures lists { IfOk result
            (λ h. (length h.guests.items ≡ 64)
            × (length h.cpus.items ≡ self.now.parts.layout.config.cpus)) }
        ensures history { IfOk result (λ h. ∥ IsOfHistory h ∥₁) }
    {
        histories::histories(global, &self.parts)
    }

    /// Merges the logs into one list of calls (CPU, step and reply), each once, whose calls of any one log are that log
    /// in order. The logs may be any. It answers NoOrder only if no such list exists, so never for the logs of one
    /// legal history; the list is then itself a legal history that leads to the same state (`laws::merged_lists`). For
    /// each call it looks at most at the next call of each CPU. Besides the list it takes memory for one number per
    /// log.
    pub fn merge(
        global: Global,
        histories: &Histories,
    ) -> Result<Vec<(u64, Step, Reply)>, MergeFault>
        ensures merged { IfOk result (λ v. ReportsMerged histories.now v.items) }
        ensures no_order { IfErr result (λ f. f ≡ NoOrder → (all : List Call) → IsMerged histories.now all → ⊥) }
        ensures of_history { IfErr result (λ f. f ≡ NoOrder → IsOfHistory histories.now → ⊥) }
    {
        merge::merged(global, histories)
    }

    /// The number of CPUs, which steps name from 0 on.
    pub fn cpus(&self) -> u64
        ensures { result ≡ self.now.parts.layout.config.cpus }
    {
        self.parts.layout.config.cpus
    }

    /// All parts, at the end of one legal history.
    pub fn split(self) -> Parts<A>
        ensures parts { result ≡ self.parts }
        ensures history { ∥ HasHistory result ∥₁ }
    {
        let World { alloc: _, parts } = self;
        parts
    }

    /// A world of parts, which keeps its trees' tables in `alloc`. Requires parts at the end of one legal
    /// history.
    pub fn join(alloc: A, parts: Parts<A>) -> World<A>
        requires history { ∥ HasHistory parts ∥₁ }
        ensures { result.parts ≡ parts }
    {
        Self { alloc, parts }
    }

    /// What the world keeps, as the reference state on lists: the maplets' runs, the owner table's, and the tables, pools,
    /// slots, CPUs and rooms as they are. By the headline it is what walking every word from scratch finds.
    pub fn to_ghost(&self, global: Global) -> Result<Ghost, AllocError>
        ensures state { IfOk result (λ g. ghost_state g ≡ state_of self.now.parts) }
        ensures layout { IfOk result (λ g. layout_of g.layout ≡ parts_layout self.now.parts) }
        ensures maplets { IfOk result (HasSameMaplets self.now.parts) }
        ensures rows { IfOk result (HasSameRows self.now.parts) }
        ensures walked { IfOk result
            (λ g. ghost_state g
            ≡ walked_state (parts_layout self.now.parts) (state_of self.now.parts)) }
        ensures frames { IfOk result (HasRowsOf (parts_layout self.now.parts)) }
    {
        kept(global, &self.parts)
    }

    /// The state that a walk of every word of the world's tables finds from scratch, with all that is in no table as it
    /// is. It adds the number of words that it reads to `reads`.
    pub fn recompute(&self, global: Global, reads: &mut Reads) -> Result<Ghost, AllocError>
        ensures state { IfOk result
            (λ g. ghost_state g
            ≡ walked_state (parts_layout self.now.parts) (state_of self.now.parts)) }
        ensures layout { IfOk result (λ g. layout_of g.layout ≡ parts_layout self.now.parts) }
        ensures frames { IfOk result (HasRowsOf (parts_layout self.now.parts)) }
        ensures reads { OnOk result
            (HasRead (count_of reads.old) (tables_of_parts self.now.parts) (count_of reads.new)) }
    {
        let walked = recompute(global, &self.parts, reads)?;
        Ok(Ghost::of_kept(walked))
    }

    /// Both: what `to_ghost` gives, and what `recompute` gives. By the headline they are the same, and then one walk
    /// serves both, and one state is both. It adds to `reads` each word that it reads.
    pub fn kept_and_walked(&self, global: Global, reads: &mut Reads) -> Result<Compared, AllocError>
        ensures compared { IfOk result (IsCompared self.now.parts) }
        ensures same { IfOk result (λ c. ghost_state (walked_in c) ≡ ghost_state c.kept) }
        ensures reads { OnOk result
            (HasRead (count_of reads.old) (tables_of_parts self.now.parts) (count_of reads.new)) }
    {
        kept_and_walked(global, &self.parts, reads)
    }

    /// Compares what the world keeps with what a walk of every word finds. By the headline they agree. It adds to `reads` each word
    /// that it reads.
    pub fn audit(
        &self,
        global: Global,
        reads: &mut Reads,
    ) -> Result<Option<Disagreement>, AllocError>
        ensures none { IfOk result (λ o. o ≡ None) }
        ensures reads { OnOk result
            (HasRead (count_of reads.old) (tables_of_parts self.now.parts) (count_of reads.new)) }
    {
        let compared = self.kept_and_walked(global, reads)?;
        let found = compared.audit();
        drop(compared);
        Ok(found)
    }

    /// The geometry of its trees.
    pub fn geometry(&self) -> Geometry
        ensures { result ≡ self.now.parts.layout.geometry }
    {
        self.parts.layout.geometry
    }

    /// Sets the word at a path of a tree, and changes nothing else: the result is a world of arbitrary words, which
    /// makes no more steps. It answers PathFault if there is no such word, also for an Empty guest, and then the world
    /// is unchanged. A poke of the word that is already there keeps the table below it; any other takes that table out.
    /// `places` holds the poked guests, so a poke takes no memory.
    pub fn poke(
        self,
        places: Vec<Option<RawGuest<A>>>,
        which: Which,
        path: &[u16],
        word: u64,
    ) -> Result<RawWorld<A>, (World<A>, PathFault)>
        requires nothing { places.items ≡ replicate 64 None }
        ensures fault { IsOk result ↔ IsSome ((parts_trees self.parts which).words path.now) }
        ensures kept { IfErr result (λ e. e.0.parts ≡ self.parts) }
        ensures poked { IfOk result (λ w. ArePartsPoked self.parts w.parts which path.now word) }
        ensures beside { IfOk result (λ w. IsBeside self.parts (raw_beside_of w.parts)) }
    {
        let World { alloc, parts } = self;
        match poke(parts, places, which, path, word) {
            Ok(parts) => Ok(RawWorld { parts }),
            Err((parts, fault)) => Err((World { alloc, parts }, fault)),
        }
    }

    /// All parts, to look at.
    pub fn parts(&self) -> &Parts<A>
        ensures { result.now ≡ self.now.parts }
    {
        &self.parts
    }
}
