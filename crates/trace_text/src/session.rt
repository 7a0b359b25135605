//! The settings and the world of a trace so far, and the effect of a line.
ghost use Rattle.std.specs.Prelude.{◌≡◌, ◌+◌, ◌<◌, ◌≤◌, ◌^◌, [], Option, Some, None, is_some, true, option_copied, option_map, IfOk, IfSome, OnOk, MatchOption};
ghost use Rattle.page_state.specs.Regions.{memory_of};
ghost use Rattle.trace_text.specs.Session.{Answers, Boots, DoesLine, IsMemoryOf, IsWorldOf, MakesStep, OnMachine, RunsLine, Starts, Tells, allowed, at_start};
ghost use Rattle.hypercalls.specs.Stands.{state_of};
ghost use Rattle.hypercalls.specs.Whole.{call_of, IsStep};
ghost use Rattle.trace_text.specs.Looks.{Looks, session_tables, world_tables};
ghost use Rattle.trace_text.specs.Ready.{IsReady, IsStateAt};
ghost use Rattle.table_tree.specs.Reading.{count_of};
ghost use Rattle.ghost_oracle.specs.Counted.{HasRead};
ghost use Rattle.trace_text.specs.View.{answer_of, body_at, kept_runs, machine_of, standing_of};
ghost use Rattle.trace_lines.specs.Settings.{config_of, told_of};
ghost use Rattle.trace_text.specs.Worlds.{IsWordOn, shared_free_count, guest_free_count, tree_table_count, named_tree};

use crate::fault::Fault;
use crate::oracle::{Oracle, Verdict};
use call_table::{Reply, Step};
use ghost_judge::disagreement::Disagreement;
use ghost_oracle::compared::Compared;
use ghost_spec::state::Ghost;
use guest_component::Body;
use maplets::Maplets;
use page_state::{MemoryMap, Page, PageRange, Region};
use std::alloc::{AllocError, Allocator, Global};
use std::mem;
use table_tree::Reads;
use trace_lines::{Allows, Line, LineFault, Query, Response, Setting, Settings, TreeName, said};
use world::World;

/// Why a line ends the run.
#[derive(Clone, Copy)]
pub enum Stop {
    Fault(Fault),
    /// Memory was refused where no line of the report can say so.
    NoMemory,
}

/// What a line reports.
#[derive(Clone, Copy)]
pub enum Reported {
    Nothing,
    /// One line.
    Line(Response),
    /// The line of a step, and what the oracle found at it.
    Step(Response, Verdict),
    /// The maplets of a tree, a line for each run.
    Maplets(TreeName),
}

/// A trace that is being carried out.
#[derive(Drop)]
pub struct Session<A: Allocator> {
    global: Global,
    alloc: A,
    settings: Settings,
    world: Option<World<A>>,
    /// The kept state after the last step, if one was made: the state before the next one.
    state: Option<Ghost>,
    /// Whether `start` came.
    started: bool,
    steps: u64,
    disagreements: u64,
    /// The words that the checks of its steps have read.
    reads: Reads,
}

impl<A: Allocator + Copy> Session<A> {
    /// A session before the first line.
    pub fn new(global: Global, alloc: A) -> Session<A>
        ensures start { standing_of result ≡ at_start }
        ensures ready { IsReady result }
    {
        Session {
            global,
            alloc,
            settings: Settings::new(global),
            world: None,
            state: None,
            started: false,
            steps: 0,
            disagreements: 0,
            reads: Reads::new(),
        }
    }

    /// The settings before the boot.
    pub fn settings(&self) -> &Settings
        ensures { told_of result.now ≡ (standing_of self.now).told }
    {
        &self.settings
    }

    /// Whether the machine has booted.
    pub fn has_booted(&self) -> bool
        ensures { result ≡ is_some (standing_of self.now).machine }
    {
        self.world.is_some()
    }

    /// Whether `start` came.
    pub fn has_started(&self) -> bool
        ensures { result ≡ (standing_of self.now).started }
    {
        self.started
    }

    /// The world, if there is one.
    pub fn world(&self) -> Option<&World<A>>
        ensures { option_map machine_of (option_copied result) ≡ (standing_of self.now).machine }
    {
        self.world.as_ref()
    }

    /// What an audit of the world finds. There is nothing to find before the boot. It adds to `reads` each word that it reads.
    pub fn audited(&self, reads: &mut Reads) -> Result<Option<Disagreement>, AllocError>
        ensures none { IfOk result (λ found. found ≡ None) }
        ensures looks { OnOk result (HasRead (count_of reads.old) (session_tables self.now) (count_of reads.new)) }
    {
        // For its contract alone: a count is at most the greatest u64.
        let _count = reads.count();
        match self.world.as_ref() {
            Some(world) => world.audit(self.global, reads),
            None => Ok(None),
        }
    }

    /// Takes the world out, if there is one. All else stays as it was, and no machine is there any more.
    pub fn take_world(&mut self) -> Option<World<A>>
        requires ready { IsReady self.old }
        ensures world { option_map machine_of result ≡ (standing_of self.old).machine }
        ensures rest { standing_of self.new ≡ record (standing_of self.old) { machine = None } }
        ensures ready { IsReady self.new }
    {
        // What was remembered goes to `drop`, as in `checked`.
        drop(self.state.take());
        self.world.take()
    }

    /// How many step lines were carried out.
    pub fn steps(&self) -> u64
        ensures { result ≡ (standing_of self.now).steps }
    {
        self.steps
    }

    /// How many disagreements were reported.
    pub fn disagreements(&self) -> u64
        ensures { result ≡ (standing_of self.now).disagreements }
    {
        self.disagreements
    }

    /// What `replay` allows at this point of the session.
    fn allows(&self) -> Allows
        ensures { result ≡ allowed (is_some (standing_of self.now).machine) (standing_of self.now).started }
    {
        if self.world.is_some() {
            Allows::of_replay(self.started)
        } else {
            Allows::before_boot()
        }
    }

    /// Carries out the line of this number, and answers its report. The oracle is asked after a step, if it looks at steps.
    /// For a line of over 256 bytes any 257 serve.
    pub fn run<O: Oracle>(
        &mut self,
        oracle: &mut O,
        number: u64,
        line: &[u8],
    ) -> Result<Reported, Stop>
        requires few { (standing_of self.old).steps < 2 ^ 62 }
        requires ready { IsReady self.old }
        ensures done { RunsLine O.gives number line.now (standing_of self.old) (answer_of self.new result)
            (standing_of self.new) }
        ensures steps { (standing_of self.new).steps ≤ (standing_of self.old).steps + 1 }
        ensures looks { O.looking oracle.old ≡ true → Looks self.old self.new }
        ensures ready { IsReady self.new }
    {
        match said(self.allows(), &self.settings, line) {
            Ok(Some(said)) => self.carry_out(oracle, number, said),
            Ok(None) => Ok(Reported::Nothing),
            Err(fault) => Err(Stop::Fault(Fault::Line(fault))),
        }
    }

    /// Carries out a line. A poke has no place here.
    pub fn carry_out<O: Oracle>(
        &mut self,
        oracle: &mut O,
        number: u64,
        said: Line,
    ) -> Result<Reported, Stop>
        requires few { (standing_of self.old).steps < 2 ^ 62 }
        requires ready { IsReady self.old }
        ensures done { DoesLine O.gives number said (standing_of self.old) (answer_of self.new result)
            (standing_of self.new) }
        ensures steps { (standing_of self.new).steps ≤ (standing_of self.old).steps + 1 }
        ensures looks { O.looking oracle.old ≡ true → Looks self.old self.new }
        ensures ready { IsReady self.new }
    {
        match said {
            Line::Setting(setting) => self.tell(setting),
            Line::Boot => self.boot(),
            Line::Step { cpu, step } => self.step(oracle, number, cpu, step),
            Line::Query(query) => self.ask(query),
            Line::Poke(_) => Err(Stop::Fault(Fault::Line(LineFault::Place))),
            Line::Start => self.start(),
        }
    }

    /// Takes up that `start` came.
    fn start(&mut self) -> Result<Reported, Stop>
        requires ready { IsReady self.old }
        ensures done { OnMachine Starts (standing_of self.old) (answer_of self.new result) (standing_of self.new) }
        ensures steps { self.new.steps ≡ self.old.steps }
        ensures ready { IsReady self.new }
    {
        if self.world.is_none() {
            return Err(Stop::Fault(Fault::Line(LineFault::Place)));
        }
        self.started = true;
        Ok(Reported::Nothing)
    }

    /// Takes up a setting.
    fn tell(&mut self, setting: Setting) -> Result<Reported, Stop>
        requires ready { IsReady self.old }
        ensures done { Tells setting (standing_of self.old) (answer_of self.new result) (standing_of self.new) }
        ensures steps { self.new.steps ≡ self.old.steps }
        ensures ready { IsReady self.new }
    {
        match self.settings.say(setting) {
            Ok(()) => Ok(Reported::Nothing),
            Err(_) => Err(Stop::NoMemory),
        }
    }

    /// Makes the world.
    fn boot(&mut self) -> Result<Reported, Stop>
        requires ready { IsReady self.old }
        ensures done { Boots (standing_of self.old) (answer_of self.new result) (standing_of self.new) }
        ensures steps { self.new.steps ≡ self.old.steps }
        ensures ready { IsReady self.new }
    {
        let Some(carve) = self.settings.carve else {
            return Err(Stop::Fault(Fault::Line(LineFault::Place)));
        };
        match self.booted(carve) {
            Ok(world) => {
                let line = boot_line(&world);
                // What was there goes to `drop`, as in `checked`.
                drop(self.world.replace(world));
                drop(self.state.take());
                Ok(Reported::Line(line))
            }
            Err(stop) => Err(stop),
        }
    }

    /// The world of the settings, with this carve-out.
    fn booted(&self, carve: PageRange) -> Result<World<A>, Stop>
        ensures { let told = told_of self.now.settings in
            IsWorldOf (memory_of told.regions carve) (config_of told) result }
    {
        let map = told_memory(self.global, self.settings.regions.as_slice(), carve)?;
        match World::boot(self.global, self.alloc, &map, self.settings.config()) {
            Ok(world) => Ok(world),
            Err(fault) => Err(Stop::Fault(Fault::Boot(fault))),
        }
    }

    /// Makes one step, and asks the oracle if it looks at steps.
    fn step<O: Oracle>(
        &mut self,
        oracle: &mut O,
        number: u64,
        cpu: u64,
        step: Step,
    ) -> Result<Reported, Stop>
        requires few { self.old.steps < 2 ^ 62 }
        requires ready { IsReady self.old }
        ensures done { OnMachine (MakesStep O.gives number cpu step) (standing_of self.old)
            (answer_of self.new result) (standing_of self.new) }
        ensures steps { self.new.steps ≤ self.old.steps + 1 }
        ensures looks { O.looking oracle.old ≡ true → Looks self.old self.new }
        ensures ready { IsReady self.new }
    {
        let Some(world) = self.world.as_mut() else {
            return Err(Stop::Fault(Fault::Line(LineFault::Place)));
        };
        if cpu >= world.cpus() {
            return Err(Stop::Fault(Fault::Cpu));
        }
        let remembered = self.state.take();
        let reads = &mut self.reads;
        let Ok(made) = step_made(self.global, oracle, world, remembered, cpu, step, reads) else {
            return Err(Stop::NoMemory);
        };
        self.steps += 1;
        self.disagreements += made.verdict.count();
        // The state before goes to `drop`, as in `checked`.
        drop(mem::replace(&mut self.state, made.after));
        let line = Response::Step {
            line: number,
            cpu,
            reply: made.reply,
        };
        Ok(Reported::Step(line, made.verdict))
    }

    /// Answers a query.
    fn ask(&self, query: Query) -> Result<Reported, Stop>
        ensures { OnMachine (Answers query) (standing_of self.now) (answer_of self.now result)
            (standing_of self.now) }
    {
        let Some(world) = self.world.as_ref() else {
            return Err(Stop::Fault(Fault::Line(LineFault::Place)));
        };
        match query {
            Query::Word { tree, page, level } => match word_on(world, tree, page, level) {
                Some(word) => Ok(Reported::Line(Response::Word(word))),
                None => Err(Stop::Fault(Fault::Path)),
            },
            Query::FreeShared => {
                let free = world.parts().shared.pool.free();
                Ok(Reported::Line(Response::Free(free)))
            }
            Query::FreeGuest(slot) => {
                let free = guest_free(world, slot);
                Ok(Reported::Line(Response::Free(free)))
            }
            Query::Show(tree) => Ok(Reported::Maplets(tree)),
        }
    }

    /// The maplets of a tree. None before the boot, and of an Empty guest.
    pub fn maplets(&self, tree: TreeName) -> Option<&Maplets>
        ensures { MatchOption result (kept_runs self.now tree ≡ [])
            (λ maplets. maplets.now.runs ≡ kept_runs self.now tree) }
    {
        let world = self.world.as_ref()?;
        let shared = &world.parts().shared;
        match tree {
            TreeName::Host => Some(shared.host.maplets()),
            TreeName::Hyp => Some(shared.hyp.maplets()),
            TreeName::Guest(slot) => {
                let body = guest_body(world, slot)?;
                Some(body.map.maplets())
            }
        }
    }
}

/// A step that was made.
#[derive(Drop)]
struct Made {
    reply: Reply,
    verdict: Verdict,
    /// What the world keeps after it, if the oracle has looked.
    after: Option<Ghost>,
}

/// The state of a world, which may be remembered.
fn state_before<A: Allocator>(
    global: Global,
    world: &World<A>,
    remembered: Option<Ghost>,
) -> Result<Ghost, AllocError>
    requires remembered { IfSome remembered (IsStateAt world.now) }
    ensures { IfOk result (IsStateAt world.now) }
{
    match remembered {
        Some(state) => Ok(state),
        None => world.to_ghost(global),
    }
}

/// Makes a step, and asks the oracle. The state before it may be remembered. Each word that is read of the state after it is
/// counted.
fn checked<A: Allocator + Copy, O: Oracle>(
    global: Global,
    oracle: &mut O,
    world: &mut World<A>,
    remembered: Option<Ghost>,
    cpu: u64,
    step: Step,
    reads: &mut Reads,
) -> Result<Made, AllocError>
    requires cpu { cpu < world.old.parts.layout.config.cpus }
    requires remembered { IfSome remembered (IsStateAt world.old) }
    ensures step { IfOk result (λ made. IsStep world.old.parts cpu step made.reply world.new.parts) }
    ensures given { IfOk result
        (λ made. O.gives (machine_of world.old) (call_of world.old.parts cpu step made.reply)
        (state_of world.new.parts) made.verdict) }
    ensures after { IfOk result (λ made. IfSome made.after (IsStateAt world.new)) }
    ensures reads { OnOk result (HasRead (count_of reads.old) (world_tables world.new) (count_of reads.new)) }
{
    let before = state_before(global, world, remembered)?;
    let reply = world.step(cpu, step);
    // States are handed to `drop`: the proof of a scope's end would go through all parts of each.
    let Ok(after) = world.kept_and_walked(global, reads) else {
        drop(before);
        return Err(AllocError);
    };
    let verdict = oracle.check(global, before, cpu, step, reply, &after);
    let Compared { kept, other } = after;
    drop(other);
    let Ok(verdict) = verdict else {
        drop(kept);
        return Err(AllocError);
    };
    Ok(Made {
        reply,
        verdict,
        after: Some(kept),
    })
}

/// Makes a step, and asks the oracle if it looks at steps.
fn step_made<A: Allocator + Copy, O: Oracle>(
    global: Global,
    oracle: &mut O,
    world: &mut World<A>,
    remembered: Option<Ghost>,
    cpu: u64,
    step: Step,
    reads: &mut Reads,
) -> Result<Made, AllocError>
    requires cpu { cpu < world.old.parts.layout.config.cpus }
    requires remembered { IfSome remembered (IsStateAt world.old) }
    ensures step { IfOk result (λ made. IsStep world.old.parts cpu step made.reply world.new.parts) }
    ensures given { IfOk result
        (λ made. O.gives (machine_of world.old) (call_of world.old.parts cpu step made.reply)
        (state_of world.new.parts) made.verdict) }
    ensures after { IfOk result (λ made. IfSome made.after (IsStateAt world.new)) }
    ensures reads { O.looking oracle.old ≡ true
        → OnOk result (HasRead (count_of reads.old) (world_tables world.new) (count_of reads.new)) }
{
    if oracle.looks() {
        return checked(global, oracle, world, remembered, cpu, step, reads);
    }
    // What was remembered is no state of this world any more.
    drop(remembered);
    let reply = world.step(cpu, step);
    Ok(Made {
        reply,
        verdict: Verdict {
            judged: None,
            audited: None,
        },
        after: None,
    })
}

/// The body of the guest in a slot. None if the slot is Empty, or past the last.
fn guest_body<A: Allocator>(world: &World<A>, slot: u64) -> Option<&Body<A>>
    ensures { MatchOption result (body_at world.now slot ≡ None)
        (λ body. body_at world.now slot ≡ Some body.now) }
{
    let part = world.parts().guests.get(slot as usize)?;
    part.guest.body()
}

/// The number of free frames of a guest's pool. An Empty guest has none.
fn guest_free<A: Allocator>(world: &World<A>, slot: u64) -> usize
    ensures { result ≡ guest_free_count (machine_of world.now) slot }
{
    match guest_body(world, slot) {
        Some(body) => body.pool.free(),
        None => 0,
    }
}

/// The word on a page's path at a level.
fn word_on<A: Allocator>(world: &World<A>, tree: TreeName, page: u64, level: u64) -> Option<u64>
    ensures { let m = machine_of world.now in
        IsWordOn m.layout.depth (named_tree m tree) page level result }
{
    let shared = &world.parts().shared;
    match tree {
        TreeName::Host => shared.host.tree().word_on(Page(page), level),
        TreeName::Hyp => shared.hyp.tree().word_on(Page(page), level),
        TreeName::Guest(slot) => {
            let body = guest_body(world, slot)?;
            body.map.tree().word_on(Page(page), level)
        }
    }
}

/// What a report says of a boot.
pub fn boot_line<A: Allocator>(world: &World<A>) -> Response
    ensures { let m = machine_of world.now in
        result
        ≡ Response.Boot (tree_table_count m TreeName.Host) (tree_table_count m TreeName.Hyp) (shared_free_count m) }
{
    let shared = &world.parts().shared;
    Response::Boot {
        host: shared.host.tree().tables(),
        hyp: shared.hyp.tree().tables(),
        free: shared.pool.free(),
    }
}

/// The memory of the regions and the carve-out that were given.
pub fn told_memory(global: Global, regions: &[Region], carve: PageRange) -> Result<MemoryMap, Stop>
    ensures { IsMemoryOf (memory_of regions.now carve) result }
{
    match MemoryMap::new(global, regions, carve) {
        Ok(map) => Ok(map),
        Err(fault) => Err(Stop::Fault(Fault::Layout(fault))),
    }
}
