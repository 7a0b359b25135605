//! The CPUs, each with its pass and its steps.
ghost use Rattle.std.specs.Prelude.{◌≡◌, ◌≤◌, [], List, All, IfOk, IfSome, length, map};
ghost use Rattle.std.specs.Thread.{IsSync};
ghost use Rattle.std.specs.Vec.{vec_capacity};
ghost use Rattle.part_table.specs.Passes.{IsPassOf};
ghost use Rattle.trace_race.specs.Made.{Calls, IsDoneOf, Makes, paired, steps_of};
ghost use Rattle.trace_race.specs.Workers.{AllFinish, HearsEach, IsReady};

use crate::course::Asked;
use call_table::{Reply, Step};
use cpu_threads::{CpuPass, Gate, Machine};
use std::alloc::{AllocError, Global};
use std::snapshot::Snapshot;
use std::sync::Wait;
use std::thread;
use std::thread::{Promise, Threads};

/// A CPU's pass, and room for the replies of its steps.
#[derive(Drop)]
pub(crate) struct Worker {
    pub pass: CpuPass<Global>,
    pub replies: Vec<Reply>,
}

/// A CPU's pass once its steps are made, and their replies in order.
#[derive(Drop)]
pub(crate) struct Done {
    pub pass: CpuPass<Global>,
    pub replies: Vec<Reply>,
}

/// What a worker's thread comes to: its pass, once all its steps are made.
#[derive(Drop)]
pub(crate) struct Comes<'a> {
    pub machine: Snapshot<Machine<Global>>,
    pub pass: Snapshot<CpuPass<Global>>,
    pub steps: &'a [Asked],
}

impl<'a> Promise<Done> for Comes<'a> {
    ghost use Rattle.trace_race.specs.Made.{IsDoneOf};

    ghost kept_by = { λ p done. IsDoneOf p.machine.value.table p.steps.now p.pass.value done };
}

impl Worker {
    /// A worker that has made none of its steps, with room for their replies.
    pub fn new(
        global: Global,
        machine: &Machine<Global>,
        pass: CpuPass<Global>,
        steps: &[Asked],
    ) -> Result<Worker, AllocError>
        requires { IsPassOf machine.now.table pass }
        ensures ready { IfOk result (IsReady machine.now.table steps.now) }
        ensures pass { IfOk result (λ w. w.pass ≡ pass) }
    {
        let _ = machine;
        let count = own_steps(steps, pass.cpu());
        let replies = Vec::with_capacity(global, count)?;
        Ok(Worker { pass, replies })
    }
}

/// How many of the steps are the CPU's.
fn own_steps(steps: &[Asked], cpu: u64) -> usize
    ensures { result ≡ length (steps_of cpu steps.now) }
{
    let mut count = 0;
    for i in 0..steps.len() {
        if steps[i].cpu == cpu {
            count += 1;
        }
    }
    count
}

/// Makes a step, which is tried again until it is answered. It may wait.
fn call<R: Wait, G: Gate>(
    rt: &R,
    machine: &Machine<Global>,
    gate: &G,
    pass: &mut CpuPass<Global>,
    step: Step,
) -> Reply
    requires { IsPassOf machine.now.table pass.old }
    ensures of { IsPassOf machine.now.table pass.new }
    ensures cpu { pass.new.knows.cpu ≡ pass.old.knows.cpu }
    ensures calls { Calls step result pass.old.knows pass.new.knows }
    ensures heard { HearsEach (G.heard_taken gate.now pass.old.knows.cpu) pass.old.knows pass.new.knows }
{
    machine.call_gated(rt, gate, pass, step)
}

/// Makes the steps of a CPU, one after another. It may wait.
fn make_all<R: Wait, G: Gate>(
    rt: &R,
    machine: &Machine<Global>,
    gate: &G,
    pass: &mut CpuPass<Global>,
    steps: &[Asked],
    replies: &mut Vec<Reply>,
)
    requires of { IsPassOf machine.now.table pass.old }
    requires none { replies.old.items ≡ [] }
    requires room { length (steps_of pass.old.knows.cpu steps.now) ≤ vec_capacity replies.old }
    ensures of { IsPassOf machine.now.table pass.new }
    ensures cpu { pass.new.knows.cpu ≡ pass.old.knows.cpu }
    ensures count { length replies.new.items ≡ length (steps_of pass.old.knows.cpu steps.now) }
    ensures makes { Makes pass.old.knows
        (paired (steps_of pass.old.knows.cpu steps.now) replies.new.items) pass.new.knows }
    ensures heard { HearsEach (G.heard_taken gate.now pass.old.knows.cpu) pass.old.knows pass.new.knows }
{
    let cpu = pass.cpu();
    for i in 0..steps.len() {
        let asked = steps[i];
        if asked.cpu != cpu {
            continue;
        }
        let reply = call(rt, machine, gate, pass, asked.step);
        replies.push(reply).unwrap();
    }
}

/// Makes all steps of a worker. It may wait.
fn work<R: Wait, G: Gate>(
    rt: &R,
    machine: &Machine<Global>,
    gate: &G,
    steps: &[Asked],
    worker: Worker,
) -> Done
    requires { IsReady machine.now.table steps.now worker }
    ensures done { IsDoneOf machine.now.table steps.now worker.pass result }
    ensures heard { HearsEach (G.heard_taken gate.now worker.pass.knows.cpu) worker.pass.knows result.pass.knows }
{
    let Worker {
        mut pass,
        mut replies,
    } = worker;
    make_all(rt, machine, gate, &mut pass, steps, &mut replies);
    Done { pass, replies }
}

/// What is promised of a thread.
fn promised<'a>(machine: &Machine<Global>, pass: &CpuPass<Global>, steps: &'a [Asked]) -> Comes<'a>
    ensures machine { result.machine.value ≡ machine.now }
    ensures pass { result.pass.value ≡ pass.now }
    ensures steps { result.steps.now ≡ steps.entry.now }
{
    Comes {
        machine: Snapshot::of(machine),
        pass: Snapshot::of(pass),
        steps,
    }
}

/// Each worker on a thread of its own. None if a thread couldn't start; it then waits for those that did.
pub(crate) fn work_at_once<'a, R: Threads + Wait + Sync, G: Gate + Sync>(
    rt: &R,
    global: Global,
    machine: &'a Machine<Global>,
    gate: &G,
    steps: &'a [Asked],
    workers: Vec<Worker>,
) -> Result<Option<Vec<Done>>, AllocError>
    requires { All (IsReady machine.now.table steps.now) workers.items }
    ensures { IfOk result
        (λ o. IfSome o
        (λ ds. AllFinish machine.entry.now.table steps.entry.now
        (map (λ w. w.pass) workers.items) ds.items)) }
{
    thread::scope(
        thread::scope_env(),
        rt,
        move |scope| -> Result<Option<Vec<Done>>, AllocError>
            requires { IsSync R.row × IsSync G.row × All (IsReady machine.now.table steps.now) workers.items }
            ensures { IfOk result
                (λ o. IfSome o
                (λ ds. AllFinish machine.entry.now.table steps.entry.now
                (map (λ w. w.pass) workers.items) ds.items)) }
        {
            let mut threads = Vec::with_capacity(global, workers.len())?;
            let mut all = Vec::with_capacity(global, workers.len())?;
            for worker in workers {
                let promise = promised(machine, &worker.pass, steps);
                match scope.spawn_with(promise, move || work(rt, machine, gate, steps, worker)) {
                    Ok(thread) => threads.push(thread)?,
                    Err(_refused) => return Ok(None),
                }
            }
            for thread in threads {
                all.push(thread.join(rt))?;
            }
            Ok(Some(all))
        },
    )
}
