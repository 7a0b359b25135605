//! Making all steps of a trace: those before `start` on a booted world, those after it on the machine of that world.
ghost use Rattle.std.specs.Prelude.{◌≡◌, ◌≢◌, ◌+◌, ◌<◌, ◌≤◌, ◌++◌, ℕ, [], List, Some, IfOk, IfSome, OnOk, drop, length, map, slice_get, slice_index, take};
ghost use Rattle.hypercalls.specs.Stands.{parts_layout};
ghost use Rattle.page_state.specs.LayoutView.{layout_of};
ghost use Rattle.part_table.specs.Passes.{AreFirst};
ghost use Rattle.trace_race.specs.Made.{AddsDone, AreBelow, AreFirstPasses, HasBegun, HasRun, HaveBooted, IsGathered, IsMadeOf, steps_of};
ghost use Rattle.trace_race.specs.Workers.{AreOfTable, AreReady};
ghost use Rattle.trace_race.specs.declared.workers.Done.{Done};

use crate::course::Asked;
use crate::workers::{Done, Worker, work_at_once};
use call_table::Reply;
use cpu_threads::{CpuPass, Gate, Machine};
use std::alloc::{AllocError, Global};
use std::sync::Wait;
use std::thread::Threads;
use world::World;

/// A machine whose CPUs have made all steps: their passes, and the replies in the trace's order.
#[derive(Drop)]
pub(crate) struct Made {
    pub machine: Machine<Global>,
    pub passes: Vec<CpuPass<Global>>,
    pub replies: Vec<Reply>,
}

/// Makes steps on a world, in order.
fn make_first(
    world: &mut World<Global>,
    steps: &[Asked],
    replies: &mut Vec<Reply>,
) -> Result<(), AllocError>
    requires below { AreBelow world.old.parts.layout.config.cpus steps.now }
    requires none { replies.old.items ≡ [] }
    ensures { OnOk result (HasRun world.old.parts steps.now replies.new.items world.new.parts) }
{
    for i in 0..steps.len() {
        let asked = steps[i];
        let reply = world.step(asked.cpu, asked.step);
        replies.push(reply)?;
    }
    Ok(())
}

/// The machine of a booted world that has made the first steps.
fn begin(
    global: Global,
    world: World<Global>,
    cpus: u64,
    steps: &[Asked],
    replies: &mut Vec<Reply>,
) -> Result<Machine<Global>, AllocError>
    requires booted { HaveBooted world.parts }
    requires cpus { cpus ≡ world.parts.layout.config.cpus }
    requires below { AreBelow cpus steps.now }
    requires none { replies.old.items ≡ [] }
    ensures layout { IfOk result (λ m. layout_of m.table.layout ≡ parts_layout world.parts) }
    ensures begun { IfOk result (λ m. HasBegun m.table steps.now replies.new.items) }
    ensures passes { IfOk result (λ m. AreFirst m.table cpus m.passes) }
{
    let mut world = world;
    let _ = cpus;
    make_first(&mut world, steps, replies)?;
    Machine::open(global, global, world)
}

/// The passes of all CPUs.
fn all_passes(
    global: Global,
    machine: &mut Machine<Global>,
    cpus: u64,
) -> Result<Vec<CpuPass<Global>>, AllocError>
    requires cpus { cpus ≡ machine.old.table.layout.config.cpus }
    requires first { AreFirst machine.old.table cpus machine.old.passes }
    ensures table { machine.new.table ≡ machine.old.table }
    ensures first { IfOk result
        (λ ps. AreFirstPasses machine.old.table machine.old.table.layout.config.cpus ps.items) }
{
    let mut passes = Vec::with_capacity(global, cpus as usize)?;
    for cpu in 0..cpus {
        let pass = machine.pass(cpu as usize).unwrap();
        passes.push(pass)?;
    }
    Ok(passes)
}

/// A worker for each CPU.
fn all_workers(
    global: Global,
    machine: &Machine<Global>,
    passes: Vec<CpuPass<Global>>,
    steps: &[Asked],
) -> Result<Vec<Worker>, AllocError>
    requires { AreOfTable machine.now.table passes.items }
    ensures { IfOk result (λ ws. AreReady machine.now.table steps.now passes.items ws.items) }
{
    let mut workers = Vec::with_capacity(global, passes.len())?;
    for pass in passes {
        workers.push(Worker::new(global, machine, pass, steps)?)?;
    }
    Ok(workers)
}

/// A zero for each of `n` CPUs: a cursor at the start of its list, or a count.
pub(crate) fn starts(global: Global, n: usize) -> Result<Vec<usize>, AllocError>
    ensures count { IfOk result (λ v. length v.items ≡ n) }
    ensures start { IfOk result (λ v. (i : ℕ) → slice_index v.items i ≡ 0) }
{
    let mut cursors = Vec::with_capacity(global, n)?;
    for _ in 0..n {
        cursors.push(0)?;
    }
    Ok(cursors)
}

/// The next reply of a CPU's worker.
fn next_reply(done: &[Done], cursors: &mut Vec<usize>, cpu: usize) -> Reply
    requires inside { (cpu < length done.now) × (length cursors.old.items ≡ length done.now) }
    requires left { (d : Done)
        → slice_get done.now cpu ≡ Some d
        → slice_index cursors.old.items cpu < length d.replies.items }
    ensures reply { (d : Done)
        → slice_get done.now cpu ≡ Some d
        → slice_get d.replies.items (slice_index cursors.old.items cpu) ≡ Some result }
    ensures count { length cursors.new.items ≡ length cursors.old.items }
    ensures here { slice_index cursors.new.items cpu ≡ slice_index cursors.old.items cpu + 1 }
    ensures others { (j : ℕ) → j ≢ cpu → slice_index cursors.new.items j ≡ slice_index cursors.old.items j }
{
    let cursor = cursors[cpu];
    cursors[cpu] = cursor + 1;
    done[cpu].replies[cursor]
}

/// The replies of the steps that were made at once, in the trace's order.
fn gather(
    steps: &[Asked],
    done: &[Done],
    cursors: &mut Vec<usize>,
    replies: &mut Vec<Reply>,
) -> Result<(), AllocError>
    requires below { AreBelow (length done.now) steps.now }
    requires count { length cursors.old.items ≡ length done.now }
    requires start { (i : ℕ) → slice_index cursors.old.items i ≡ 0 }
    requires done { (cpu : ℕ) (d : Done)
        → slice_get done.now cpu ≡ Some d
        → length d.replies.items ≡ length (steps_of cpu steps.now) }
    ensures gathered { OnOk result
        ((more : List Reply)
        × (replies.new.items ≡ replies.old.items ++ more)
        × IsGathered steps.now done.now more) }
{
    for i in 0..steps.len() {
        replies.push(next_reply(done, cursors, steps[i].cpu as usize))?;
    }
    Ok(())
}

/// The passes of all that are done.
fn passes_of(done: Vec<Done>, passes: &mut Vec<CpuPass<Global>>) -> Result<(), AllocError>
    requires none { passes.old.items ≡ [] }
    ensures { OnOk result (passes.new.items ≡ map (λ d. d.pass) done.items) }
{
    for one in done {
        let Done { pass, .. } = one;
        passes.push(pass)?;
    }
    Ok(())
}

/// Makes steps at once, with a pass of each CPU that has made no call: the passes then. None if a thread couldn't
/// start. It allocates all lists before the first thread starts.
fn make_on<R: Threads + Wait + Sync, G: Gate + Sync>(
    rt: &R,
    global: Global,
    machine: &Machine<Global>,
    gate: &G,
    passes: Vec<CpuPass<Global>>,
    steps: &[Asked],
    replies: &mut Vec<Reply>,
) -> Result<Option<Vec<CpuPass<Global>>>, AllocError>
    requires first { AreFirstPasses machine.now.table machine.now.table.layout.config.cpus passes.items }
    requires below { AreBelow machine.now.table.layout.config.cpus steps.now }
    ensures { IfOk result
        (λ o. IfSome o
        (λ ps. AddsDone machine.now.table steps.now replies.old.items replies.new.items
        ps.items)) }
{
    let count = passes.len();
    let mut ended = Vec::with_capacity(global, count)?;
    let mut cursors = starts(global, count)?;
    let workers = all_workers(global, machine, passes, steps)?;
    let Some(done) = work_at_once(rt, global, machine, gate, steps, workers)? else {
        return Ok(None);
    };
    gather(steps, done.as_slice(), &mut cursors, replies)?;
    passes_of(done, &mut ended)?;
    Ok(Some(ended))
}

/// Makes all steps on a booted world with `cpus` CPUs: the first in order, those after them at once. None if a thread
/// couldn't start.
pub(crate) fn make<R: Threads + Wait + Sync, G: Gate + Sync>(
    rt: &R,
    global: Global,
    world: World<Global>,
    gate: &G,
    cpus: u64,
    steps: &[Asked],
    first: usize,
) -> Result<Option<Made>, AllocError>
    requires booted { HaveBooted world.parts }
    requires cpus { cpus ≡ world.parts.layout.config.cpus }
    requires below { AreBelow cpus steps.now }
    requires first { first ≤ length steps.now }
    ensures { IfOk result
        (λ o. IfSome o
        (λ m. (layout_of m.machine.table.layout ≡ parts_layout world.parts)
        × IsMadeOf first steps.now m)) }
{
    let mut replies = Vec::with_capacity(global, steps.len())?;
    let (before, raced) = steps.split_at(first);
    let mut machine = begin(global, world, cpus, before, &mut replies)?;
    let passes = all_passes(global, &mut machine, cpus)?;
    let Some(ended) = make_on(rt, global, &machine, gate, passes, raced, &mut replies)? else {
        return Ok(None);
    };
    Ok(Some(Made {
        machine,
        passes: ended,
        replies,
    }))
}
