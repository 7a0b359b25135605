//! A trace that is being audited.
ghost use Rattle.std.specs.Prelude.{◌≡◌, ◌+◌, ◌<◌, ◌≤◌, ◌^◌, IfOk, None, OnOk, replicate};
ghost use Rattle.ghost_oracle.specs.Counted.{HasRead};
ghost use Rattle.ghost_oracle.specs.Poked.{IsBeside, parts_trees, raw_beside_of, raw_trees};
ghost use Rattle.trace_audit.specs.Audited.{ComparesWalk, Does, IsAudited, IsRawWalk, IsTold, IsWalkOf, Pokes, RunsLine, Sets, TellsWalk, allowed, nothing_audited};
ghost use Rattle.trace_audit.specs.Paths.{poke_in, which_of as which_named};
ghost use Rattle.trace_audit.specs.View.{audited_of};
ghost use Rattle.table_tree.specs.Reading.{count_of};
ghost use Rattle.trace_text.specs.Looks.{session_tables};
ghost use Rattle.trace_text.specs.Ready.{IsReady};
ghost use Rattle.trace_text.specs.View.{answer_of, machine_of, standing_of};

use crate::path::path_on;
use ghost_judge::audit::audit_lists;
use ghost_judge::disagreement::Disagreement;
use ghost_legal::{Unlawful, illegal_lists};
use ghost_oracle::pokes::no_pokes;
use ghost_oracle::raw::{RawGuest, Which};
use std::alloc::{AllocError, Allocator, Global};
use table_tree::Reads;
use trace_lines::{Allows, Line, LineFault, Poke, TreeName, said};
use trace_text::{Fault, NoOracle, Reported, Session, Stop};
use world::{RawWorld, World};

/// What is carried out of a trace: its steps and questions by a session, and its pokes on the world that they lead to.
#[derive(Drop)]
pub struct Audit<A: Allocator> {
    global: Global,
    pub session: Session<A>,
    poked: Option<RawWorld<A>>,
}

impl<A: Allocator + Copy> Audit<A> {
    /// An audit before the first line. `alloc` holds the tables of the trees.
    pub fn new(global: Global, alloc: A) -> Audit<A>
        ensures start { audited_of result ≡ nothing_audited }
        ensures ready { IsReady result.session }
    {
        Audit {
            global,
            session: Session::new(global, alloc),
            poked: None,
        }
    }

    /// What `audit` allows at this point of the trace.
    fn allows(&self) -> Allows
        ensures { result ≡ allowed (audited_of self.now) }
    {
        if self.poked.is_some() {
            return Allows::after_poke();
        }
        if self.session.has_booted() {
            Allows::of_audit(self.session.has_started())
        } else {
            Allows::before_boot()
        }
    }

    /// Carries out the line of this number, and returns its report. Of a line of over 256 bytes any 257 serve.
    pub fn run(&mut self, number: u64, line: &[u8]) -> Result<Reported, Stop>
        requires few { (standing_of self.old.session).steps < 2 ^ 62 }
        requires ready { IsReady self.old.session }
        ensures done { RunsLine number line.now (audited_of self.old) (answer_of self.new.session result)
            (audited_of self.new) }
        ensures steps { (standing_of self.new.session).steps ≤ (standing_of self.old.session).steps + 1 }
        ensures ready { IsReady self.new.session }
    {
        match said(self.allows(), self.session.settings(), line) {
            Ok(Some(said)) => self.carry_out(number, said),
            Ok(None) => Ok(Reported::Nothing),
            Err(fault) => Err(Stop::Fault(Fault::Line(fault))),
        }
    }

    fn carry_out(&mut self, number: u64, said: Line) -> Result<Reported, Stop>
        requires few { (standing_of self.old.session).steps < 2 ^ 62 }
        requires ready { IsReady self.old.session }
        ensures done { Does number said (audited_of self.old) (answer_of self.new.session result)
            (audited_of self.new) }
        ensures steps { (standing_of self.new.session).steps ≤ (standing_of self.old.session).steps + 1 }
        ensures ready { IsReady self.new.session }
    {
        match asked_poke(said) {
            Some(poke) => self.poke(poke),
            None => self.session.carry_out(&mut NoOracle, number, said),
        }
    }

    /// Sets a word.
    fn poke(&mut self, poke: Poke) -> Result<Reported, Stop>
        requires ready { IsReady self.old.session }
        ensures done { Pokes poke (audited_of self.old) (answer_of self.new.session result) (audited_of self.new) }
        ensures steps { (standing_of self.new.session).steps ≡ (standing_of self.old.session).steps }
        ensures ready { IsReady self.new.session }
    {
        match self.poked.take() {
            Some(world) => match poke_again(world, poke) {
                Ok(world) => {
                    self.poked = Some(world);
                    Ok(Reported::Nothing)
                }
                Err(stop) => Err(stop),
            },
            None => self.poke_first(poke),
        }
    }

    /// Sets the first word.
    fn poke_first(&mut self, poke: Poke) -> Result<Reported, Stop>
        requires none { self.old.poked ≡ None }
        requires ready { IsReady self.old.session }
        ensures done { Pokes poke (audited_of self.old) (answer_of self.new.session result) (audited_of self.new) }
        ensures steps { (standing_of self.new.session).steps ≡ (standing_of self.old.session).steps }
        ensures ready { IsReady self.new.session }
    {
        let session = &mut self.session;
        let Some(world) = session.take_world() else {
            return Err(Stop::Fault(Fault::Line(LineFault::Place)));
        };
        let Ok(places) = no_pokes(self.global) else {
            drop(world);
            return Err(Stop::NoMemory);
        };
        match poke_world(world, places, poke) {
            Ok(world) => {
                self.poked = Some(world);
                Ok(Reported::Nothing)
            }
            Err(stop) => Err(stop),
        }
    }

    /// The audit's finding. None if the kept state is the walked one, as it is without a poke; then it adds the number
    /// of words that it reads to `reads`.
    pub fn audited(&self, reads: &mut Reads) -> Result<Option<Disagreement>, AllocError>
        ensures found { IfOk result (IsAudited (audited_of self.now)) }
        ensures looks { self.now.poked ≡ None
            → OnOk result
            (HasRead (count_of reads.old) (session_tables self.now.session)
            (count_of reads.new)) }
    {
        match &self.poked {
            Some(world) => compared(self.global, world),
            None => self.session.audited(reads),
        }
    }

    /// Why the state that a walk of all words finds isn't legal. None if it is, and before the boot.
    pub(crate) fn unlawful(&self) -> Result<Option<Unlawful>, AllocError>
        ensures { IfOk result (IsTold (audited_of self.now)) }
    {
        match &self.poked {
            Some(world) => poked_unlawful(self.global, world),
            None => match self.session.world() {
                Some(world) => world_unlawful(self.global, world),
                None => Ok(None),
            },
        }
    }
}

/// The poke that a line asks for.
fn asked_poke(said: Line) -> Option<Poke>
    ensures { result ≡ poke_in said }
{
    match said {
        Line::Poke(poke) => Some(poke),
        Line::Setting(_) | Line::Boot | Line::Step { .. } | Line::Query(_) | Line::Start => None,
    }
}

/// The tree of a name.
fn which_of(tree: TreeName) -> Which
    ensures { result ≡ which_named tree }
{
    match tree {
        TreeName::Host => Which::Host,
        TreeName::Hyp => Which::Hyp,
        TreeName::Guest(slot) => Which::Guest(slot),
    }
}

/// Sets a word of a world that was poked already.
fn poke_again<A: Allocator>(world: RawWorld<A>, poke: Poke) -> Result<RawWorld<A>, Stop>
    ensures { Sets world.parts.layout.geometry (raw_trees world.parts)
        (λ beside. beside ≡ raw_beside_of world.parts) poke result }
{
    let Some(path) = path_on(world.geometry(), poke.page, poke.level) else {
        return Err(Stop::Fault(Fault::Path));
    };
    match world.poke(which_of(poke.tree), path.as_slice(), poke.word) {
        Ok(world) => Ok(world),
        Err((_world, _fault)) => Err(Stop::Fault(Fault::Path)),
    }
}

/// Sets the first word of a world. `places` is room for the guests that are poked.
fn poke_world<A: Allocator>(
    world: World<A>,
    places: Vec<Option<RawGuest<A>>>,
    poke: Poke,
) -> Result<RawWorld<A>, Stop>
    requires nothing { places.items ≡ replicate 64 None }
    ensures { Sets world.parts.layout.geometry (parts_trees world.parts)
        (IsBeside world.parts) poke result }
{
    let Some(path) = path_on(world.geometry(), poke.page, poke.level) else {
        return Err(Stop::Fault(Fault::Path));
    };
    match world.poke(places, which_of(poke.tree), path.as_slice(), poke.word) {
        Ok(world) => Ok(world),
        Err((_world, _fault)) => Err(Stop::Fault(Fault::Path)),
    }
}

/// The first difference of what a poked world keeps and what a walk of all its words finds.
fn compared<A: Allocator>(
    global: Global,
    world: &RawWorld<A>,
) -> Result<Option<Disagreement>, AllocError>
    ensures { IfOk result (ComparesWalk world.now.parts) }
{
    let kept = world.to_ghost(global)?;
    // Lists are handed to `drop`: the proof of a scope's end would go through all parts of each.
    let Ok(walked) = world.recompute(global) else {
        drop(kept);
        return Err(AllocError);
    };
    let found = audit_lists(&kept, &walked);
    drop(walked);
    drop(kept);
    Ok(found)
}

/// Why what a walk of all words of a poked world finds is no legal state.
fn poked_unlawful<A: Allocator>(
    global: Global,
    world: &RawWorld<A>,
) -> Result<Option<Unlawful>, AllocError>
    ensures { IfOk result (TellsWalk (IsRawWalk world.now.parts)) }
{
    let walked = world.recompute(global)?;
    // As in `compared`.
    let Ok(why) = illegal_lists(global, &walked) else {
        drop(walked);
        return Err(AllocError);
    };
    drop(walked);
    Ok(why)
}

/// The same of a world without a poke.
fn world_unlawful<A: Allocator>(
    global: Global,
    world: &World<A>,
) -> Result<Option<Unlawful>, AllocError>
    ensures { IfOk result (TellsWalk (IsWalkOf (machine_of world.now))) }
{
    let walked = world.recompute(global, &mut Reads::new())?;
    let Ok(why) = illegal_lists(global, walked.lists()) else {
        drop(walked);
        return Err(AllocError);
    };
    drop(walked);
    Ok(why)
}
