//! A walk along the plain program of the rules, a call at a time.
ghost use Rattle.std.specs.Prelude.{◌≡◌, ◌+◌, ◌*◌, ◌^◌, ◌<◌, ◌≤◌, true, false, IfOk, IfErr, IfSome, OnOk, Ok, Err, None, if◌then◌else◌};
ghost use Rattle.page_state.specs.LayoutView.{layout_of};
ghost use Rattle.reference_model.specs.model.Boot.{boot};
ghost use Rattle.reference_model.specs.model.Step.{predict_step};
ghost use Rattle.ghost_spec.specs.States.{ghost_state};
ghost use Rattle.trace_generate.specs.Chance.{drawn};
ghost use Rattle.trace_generate.specs.Machine.{IsFault, IsInRange, IsLayoutOf};
ghost use Rattle.trace_generate.specs.Reading.{IsIn64Bits};
ghost use Rattle.trace_generate.specs.Walks.{IsCallOf, after as after_call, is_hostile as is_hostile_number, is_refusal as is_refusal_of, is_refused};

use crate::chance::below;
use crate::choice::{likely, sure};
use crate::line::StepLine;
use crate::options::{GenerateFault, Options, carve, config, memory};
use crate::refusal::{refused, unlikely};
use crate::wanting::Made;
use call_table::{Reply, Step};
use ghost_spec::start::start;
use ghost_spec::state::{Ghost, has_next_generation, predict};
use page_state::{Geometry, Layout, LayoutFault, MemoryMap, PageRange, Region, RegionKind};
use rand_pcg::Pcg32;
use std::alloc::{AllocError, Global};
use std::mem;

/// How many calls are tried before a sure one is taken.
pub(crate) const TRIES: u64 = 6;

/// The state at boot of the machine that options describe.
pub(crate) fn booted(global: Global, steps: u64, options: Options) -> Result<Ghost, GenerateFault>
    requires { IsInRange steps options }
    ensures layout { IfOk result (λ g. IsLayoutOf steps options (layout_of g.layout)) }
    ensures state { IfOk result (λ g. ghost_state g ≡ boot (layout_of g.layout)) }
    ensures fault { IfErr result (λ f. IsFault f steps options) }
{
    let Some(geometry) = Geometry::of_bits(options.geometry) else {
        return Err(GenerateFault::Geometry);
    };
    let regions = [Region {
        kind: RegionKind::Memory,
        pages: memory(options),
    }];
    let map = match MemoryMap::new(global, regions.as_slice(), carve(options)) {
        Ok(map) => map,
        Err(LayoutFault::NoMemory) => return Err(GenerateFault::NoMemory),
        Err(_) => return Err(GenerateFault::NoBoot),
    };
    let layout = Layout {
        map,
        config: config(steps, options),
        geometry,
    };
    match start(global, layout) {
        Ok(Some(state)) => Ok(state),
        Ok(None) => Err(GenerateFault::NoBoot),
        Err(_) => Err(GenerateFault::NoMemory),
    }
}

/// Whether the call of a number, counted from 0, is to be refused: of the first `n` calls `n * hostile / 100` are.
pub(crate) fn is_hostile(hostile: u64, number: u64) -> bool
    requires hostile { hostile ≤ 100 }
    requires number { number < 2 ^ 32 }
    ensures { result ≡ is_hostile_number hostile number }
{
    (number + 1) * hostile / 100 != number * hostile / 100
}

fn is_refusal(reply: Reply) -> bool
    ensures { result ≡ is_refusal_of reply }
{
    matches!(reply, Reply::Refused(_))
}

/// Makes a call on the state if its reply is as asked.
fn goes_on(
    global: Global,
    state: &mut Ghost,
    call: StepLine,
    hostile: bool,
) -> Result<bool, AllocError>
    requires { call.cpu < state.old.layout.config.cpus }
    ensures no { result ≡ Ok false → state.new ≡ state.old }
    ensures wanted { result ≡ Ok true
        → is_refused (layout_of state.old.layout) (ghost_state state.old) call ≡ hostile }
    ensures state { result ≡ Ok true
        → ghost_state state.new
        ≡ after_call (layout_of state.old.layout) (ghost_state state.old) call }
    ensures layout { OnOk result (layout_of state.new.layout ≡ layout_of state.old.layout) }
{
    if !has_next_generation(state, call.cpu, call.step) {
        return Ok(false);
    }
    let (reply, after) = predict(global, state, call.cpu, call.step)?;
    if is_refusal(reply) != hostile {
        drop(after);
        return Ok(false);
    }
    drop(mem::replace(state, after));
    Ok(true)
}

/// A call to try.
fn candidate(
    state: &Ghost,
    memory: PageRange,
    hostile: bool,
    cpu: u64,
    made: Made,
    chance: &mut Pcg32,
) -> Step {
    if hostile {
        unlikely(state.lists(), memory, cpu, chance)
    } else {
        likely(state.lists(), memory, cpu, made, chance)
    }
}

/// Tries a call of the walk from a CPU that is drawn. If its reply isn't as asked, the state stays as it was.
pub(crate) fn tried(
    global: Global,
    state: &mut Ghost,
    memory: PageRange,
    hostile: bool,
    made: Made,
    chance: &mut Pcg32,
) -> Result<Option<StepLine>, AllocError>
    requires { 0 < state.old.layout.config.cpus }
    ensures none { result ≡ Ok None → state.new ≡ state.old }
    ensures drawn { IfOk result (λ o. IfSome o (λ c. c.cpu ≡ drawn chance.old state.old.layout.config.cpus)) }
    ensures call { IfOk result
        (λ o. IfSome o (IsCallOf (layout_of state.old.layout) hostile (ghost_state state.old))) }
    ensures wanted { IfOk result
        (λ o. IfSome o
        (λ c. is_refused (layout_of state.old.layout) (ghost_state state.old) c ≡ hostile)) }
    ensures state { IfOk result
        (λ o. IfSome o
        (λ c. ghost_state state.new
        ≡ after_call (layout_of state.old.layout) (ghost_state state.old) c)) }
    ensures layout { OnOk result (layout_of state.new.layout ≡ layout_of state.old.layout) }
{
    let cpu = below(chance, state.lists().layout.config.cpus);
    let step = candidate(state, memory, hostile, cpu, made, chance);
    let call = StepLine { cpu, step };
    if goes_on(global, state, call, hostile)? {
        return Ok(Some(call));
    }
    Ok(None)
}

/// A call, from a CPU that is drawn, whose reply is certain to be as asked.
fn surely(
    global: Global,
    state: &mut Ghost,
    hostile: bool,
    chance: &mut Pcg32,
) -> Result<StepLine, AllocError>
    requires { 0 < state.old.layout.config.cpus }
    ensures drawn { IfOk result (λ c. c.cpu ≡ drawn chance.old state.old.layout.config.cpus) }
    ensures call { IfOk result (IsCallOf (layout_of state.old.layout) hostile (ghost_state state.old)) }
    ensures state { IfOk result
        (λ c. ghost_state state.new
        ≡ after_call (layout_of state.old.layout) (ghost_state state.old) c) }
    ensures layout { OnOk result (layout_of state.new.layout ≡ layout_of state.old.layout) }
{
    let layout = &state.lists().layout;
    // The memory of every layout is accepted, so that it ends below the page of a refused call.
    let _ = layout.map.regions();
    let cpu = below(chance, layout.config.cpus);
    let step = sure_step(hostile);
    let (_, after) = predict(global, state, cpu, step)?;
    drop(mem::replace(state, after));
    Ok(StepLine { cpu, step })
}

/// A call that is always refused, or one that always answers ok.
fn sure_step(hostile: bool) -> Step
    ensures { result ≡ (if hostile then Step.ShareHyp 0xffff_ffff_ffff_ffff else Step.OwnerOf 0x40000) }
{
    if hostile { refused() } else { sure() }
}

/// The next call of the walk, by the calls before it.
pub(crate) fn next_call(
    global: Global,
    state: &mut Ghost,
    memory: PageRange,
    hostile: bool,
    made: Made,
    chance: &mut Pcg32,
) -> Result<StepLine, AllocError>
    requires { 0 < state.old.layout.config.cpus }
    ensures call { IfOk result (IsCallOf (layout_of state.old.layout) hostile (ghost_state state.old)) }
    ensures state { IfOk result
        (λ c. ghost_state state.new
        ≡ after_call (layout_of state.old.layout) (ghost_state state.old) c) }
    ensures layout { OnOk result (layout_of state.new.layout ≡ layout_of state.old.layout) }
{
    for _ in 0..TRIES {
        if let Some(call) = tried(global, state, memory, hostile, made, chance)? {
            return Ok(call);
        }
    }
    surely(global, state, hostile, chance)
}
