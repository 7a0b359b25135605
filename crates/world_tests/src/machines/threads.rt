//! CPUs on threads of their own.
ghost use Rattle.std.specs.Prelude.{◌≡◌, ◌<◌, ◌^◌, IfOk, OnOk};
ghost use Rattle.part_table.specs.Passes.{IsPassOf};
ghost use Rattle.cpu_threads.specs.Ends.{AreOf};

use super::gates::{FIRST, SECOND, UNMAPPED, question};
use super::judged::{Counting, call_judged};
use super::rows::make_both;
use super::*;
use crate::held::Held;
use crate::numbers::Numbers;
use crate::sample::started;
use ghost_spec::state::{Ghost, has_next_generation, predict_last};
use std::alloc::AllocError;
use std::sync::atomic::{AtomicU64, Ordering};
use std::thread;
use std::thread::{Threads, join};
use world::World;

/// Asks about the first VM, and is held in the middle of the call.
fn ask_held(machine: &Machine<Global>, pass: CpuPass<Global>, gate: &Held) -> Reply
    requires { IsPassOf machine.now.table pass }
{
    let mut pass = pass;
    machine.try_call_gated(gate, &mut pass, question(FIRST))
}

/// Asks about the second VM once the other call holds its parts.
fn ask_beside(machine: &Machine<Global>, pass: CpuPass<Global>, gate: &Held) -> Option<Reply>
    requires { IsPassOf machine.now.table pass }
{
    if !gate.is_taken() {
        return None;
    }
    let mut pass = pass;
    Some(machine.try_call_gated(gate, &mut pass, question(SECOND)))
}

#[test]
fn gate_two_threads(rt: HostRuntime) {
    let mut machine = new_machine(&rt, rt.alloc(), 2, 64);
    let mut zero = machine.pass(0).expect(&rt, "the pass of CPU 0");
    let mut one = machine.pass(1).expect(&rt, "the pass of CPU 1");
    make_both(&rt, &machine, &mut zero, &mut one);
    let gate = Held::new();
    let (shared, held) = (&machine, &gate);
    let (first, second) = join(
        &rt,
        || ask_held(shared, zero, held),
        || ask_beside(shared, one, held),
    );
    assert_eq!(rt; first, UNMAPPED);
    assert!(rt; second == Some(UNMAPPED));
    assert!(rt; !gate.was_late());
    drop(machine);
}

/// The CPUs of the many calls.
const CPUS: u64 = 8;

/// The calls of each.
const CALLS: u64 = 5_000;

/// The calls that a log holds: each CPU's, with those that make its VM.
const LOG: u64 = CPUS * (CALLS + 4);

/// The VM that a CPU makes.
fn vm_of(cpu: u64) -> VmId {
    VmId {
        slot: cpu,
        generation: 1,
    }
}

/// A CPU that makes calls by chance.
#[derive(Drop)]
struct Caller {
    cpu: u64,
    numbers: Numbers,
}

impl Caller {
    /// A frame that several CPUs ask for.
    fn frame(&mut self) -> u64
        ensures { result < 2 ^ 32 }
    {
        0x40100 + self.numbers.below(24)
    }

    /// An input page of a guest.
    fn guest_page(&mut self) -> u64 {
        0x80000 + self.numbers.below(4)
    }

    /// A call about the host, the hypervisor or an owner.
    fn step_of_host(&mut self) -> Step {
        let pfn = self.frame();
        match self.numbers.below(7) {
            0 => Step::ShareHyp { pfn },
            1 => Step::UnshareHyp { pfn },
            2 => Step::DonateHyp { pfn, n: 1 },
            3 => Step::HypDonateHost { pfn, n: 1 },
            4 => Step::HostAbort { page: pfn },
            5 => Step::HostTranslate { page: pfn },
            _ => Step::OwnerOf { pfn },
        }
    }

    /// A call about a guest, in most cases the CPU's own.
    fn step_of_guest(&mut self) -> Step {
        let other = self.numbers.below(CPUS);
        let is_own = self.numbers.below(4) > 0;
        let vm = vm_of(if is_own { self.cpu } else { other });
        let gfn = self.guest_page();
        let pfn = self.frame();
        match self.numbers.below(9) {
            0 => Step::VcpuLoad { vm, vcpu: 0 },
            1 => Step::VcpuPut,
            2 | 3 => Step::DonateGuest { pfn, gfn, n: 1 },
            4 => Step::GuestShareHost { gfn },
            5 => Step::GuestUnshareHost { gfn },
            6 => Step::ReclaimPage { vm, gfn },
            _ => Step::GuestTranslate { vm, gfn },
        }
    }

    /// Any call.
    fn step(&mut self) -> Step {
        if self.numbers.below(2) == 0 {
            self.step_of_host()
        } else {
            self.step_of_guest()
        }
    }
}

/// How often the judges of all CPUs were asked, and how often one disagreed or memory was refused.
#[derive(Drop)]
struct Tally {
    asked: AtomicU64,
    strange: AtomicU64,
}

/// Makes many calls of a CPU, with a judge of its own.
fn make_many(global: Global, machine: &Machine<Global>, pass: &mut CpuPass<Global>, tally: &Tally)
    requires { IsPassOf machine.now.table pass.old }
    ensures { IsPassOf machine.now.table pass.new }
{
    let cpu = pass.cpu();
    let mut caller = Caller {
        cpu,
        numbers: Numbers::of(cpu),
    };
    let mut judge = Counting::new(global, false);
    for _ in 0..CALLS {
        let step = caller.step();
        call_judged(global, machine, pass, step, &mut judge);
    }
    let found = judge.found;
    tally.asked.fetch_add(found.asked, Ordering::SeqCst);
    let strange = found.disagreed.wrapping_add(found.refused);
    tally.strange.fetch_add(strange, Ordering::SeqCst);
}

/// Makes the calls of all CPUs, each on a thread of its own.
fn make_all<R: Threads + Sync>(
    rt: &R,
    global: Global,
    machine: &Machine<Global>,
    passes: &mut [CpuPass<Global>],
    tally: &Tally,
)
    requires { AreOf machine.now.table passes.old }
    ensures { AreOf machine.now.table passes.new }
{
    thread::for_each_mut(
        rt,
        passes,
        CPUS as usize,
        &|_: usize, pass: &mut CpuPass<Global>|
            requires { IsPassOf machine.now.table pass.now }
            ensures { IsPassOf machine.entry.now.table pass.exit.now }
        { make_many(global, machine, pass, tally) },
    );
}

/// The passes of all CPUs, each with a VM of its own.
fn ready_passes<R: Wait + Abort>(
    rt: &R,
    alloc: Global,
    machine: &mut Machine<Global>,
) -> Result<Vec<CpuPass<Global>>, AllocError>
    ensures table { machine.new.table ≡ machine.old.table }
    ensures passes { IfOk result (λ v. AreOf machine.new.table v.items) }
{
    let mut passes = Vec::with_capacity(alloc, CPUS as usize)?;
    for cpu in 0..CPUS {
        let mut pass = machine.pass(cpu as usize).expect(rt, "a pass");
        let asked = (VmKind::Protected, 1, 0x40400 + 8 * cpu, 4);
        expect_init(rt, machine, &mut pass, asked, Ok(vm_of(cpu)));
        passes.push(pass)?;
    }
    Ok(passes)
}

/// Makes a call on a state, and compares its reply.
fn agrees(
    rt: &impl Abort,
    alloc: Global,
    state: Ghost,
    call: &(u64, Step, Reply),
) -> Result<Ghost, AllocError> {
    let (cpu, step, reply) = *call;
    assert!(rt; cpu < state.lists().layout.config.cpus);
    assert!(rt; has_next_generation(&state, cpu, step));
    let (predicted, after) = predict_last(alloc, state, cpu, step)?;
    assert_eq!(rt; reply, predicted);
    Ok(after)
}

/// Makes the calls of a list on a state, from boot on.
fn all_agree(rt: &impl Abort, alloc: Global, calls: &[(u64, Step, Reply)]) {
    let map = memory(alloc, 0x40).expect(rt, "a layout");
    let begun = started(alloc, map, CPUS, LOG).expect(rt, "memory");
    let mut state = begun.expect(rt, "enough frames");
    for call in calls {
        state = agrees(rt, alloc, state, call).expect(rt, "memory");
    }
    drop(state);
}

#[test]
fn eight_cpus(rt: HostRuntime) {
    let alloc = rt.alloc();
    let mut machine = new_machine(&rt, alloc, CPUS, LOG);
    let mut passes = ready_passes(&rt, alloc, &mut machine).expect(&rt, "memory");
    let tally = Tally {
        asked: AtomicU64::new(0),
        strange: AtomicU64::new(0),
    };
    make_all(&rt, alloc, &machine, passes.as_mut_slice(), &tally);
    assert_eq!(rt; tally.asked.load(Ordering::SeqCst), CPUS * CALLS);
    assert_eq!(rt; tally.strange.load(Ordering::SeqCst), 0);
    let ended = machine.shutdown(alloc, passes);
    let (world, logs) = ended.ok().expect(&rt, "a machine that is shut down");
    drop(world);
    let calls = World::<Global>::merge(alloc, &logs).expect(&rt, "merged logs");
    assert_eq!(rt; calls.len() as u64, LOG);
    all_agree(&rt, alloc, calls.as_slice());
}
