//! A next call on a state, by chance alone.
ghost use Rattle.std.specs.Prelude.{◌≡◌, ◌<◌, ◌≤◌, IfOk, if◌then◌else◌};
ghost use Rattle.page_state.specs.LayoutView.{layout_of};
ghost use Rattle.reference_model.specs.model.State.{all_rooms};
ghost use Rattle.ghost_spec.specs.States.{ghost_state};
ghost use Rattle.trace_generate.specs.Suggested.{IsChosen, IsSuggested, is_chance};

use crate::chance::{below, seeded};
use crate::line::StepLine;
use crate::refusal::refused;
use crate::walk::{TRIES, tried};
use crate::wanting::Made;
use call_table::Step;
use ghost_spec::state::Ghost;
use page_state::{MemoryMap, PageRange};
use rand_pcg::Pcg32;
use std::alloc::{AllocError, Global};

/// A next call on a state whose logs have room for one, by a CPU of the layout. The model refuses `hostile` of a hundred. The same state, number and percentage
/// give the same call: nothing is known of the calls before it, so the number picks which calls it leads to.
pub fn suggested(
    global: Global,
    state: Ghost,
    random: u64,
    hostile: u64,
) -> Result<StepLine, AllocError>
    requires cpus { 0 < state.layout.config.cpus }
    requires rooms { (ghost_state state).rooms ≡ all_rooms 1 }
    requires hostile { hostile ≤ 100 }
    ensures { IfOk result (IsSuggested (layout_of state.layout) (ghost_state state) random hostile) }
{
    let mut state = state;
    let mut chance = seeded(random);
    let is_refused = is_chosen(&mut chance, hostile);
    let call = chosen(global, &mut state, is_refused, &mut chance);
    drop(state);
    call
}

/// Whether a number below 100 that is drawn is below a percentage.
fn is_chosen(chance: &mut Pcg32, percent: u64) -> bool
    ensures { result ≡ is_chance chance.old percent }
{
    below(chance, 100) < percent
}

/// A call that is refused or made, as asked, found in a limited number of tries; the state goes on by it.
fn chosen(
    global: Global,
    state: &mut Ghost,
    hostile: bool,
    chance: &mut Pcg32,
) -> Result<StepLine, AllocError>
    requires cpus { 0 < state.old.layout.config.cpus }
    requires rooms { (ghost_state state.old).rooms ≡ all_rooms 1 }
    ensures { IfOk result (IsChosen (layout_of state.old.layout) (ghost_state state.old) hostile) }
{
    let made = Made::picked(chance);
    let memory = picked_region(&state.lists().layout.map, chance);
    for _ in 0..TRIES {
        if let Some(call) = tried(global, state, memory, hostile, made, chance)? {
            return Ok(call);
        }
    }
    Ok(settled(state, hostile, chance))
}

/// The pages of a region.
fn picked_region(map: &MemoryMap, chance: &mut Pcg32) -> PageRange {
    let regions = map.regions();
    let mut picked = map.carve();
    for i in 0..regions.len() {
        if below(chance, i as u64 + 1) == 0 {
            picked = regions[i].pages;
        }
    }
    picked
}

/// A call that is always refused, or one that is always made: who owns the first frame of the carve-out.
fn settled(state: &Ghost, hostile: bool, chance: &mut Pcg32) -> StepLine
    requires cpus { 0 < state.now.layout.config.cpus }
    requires rooms { (ghost_state state.now).rooms ≡ all_rooms 1 }
    ensures { IsChosen (layout_of state.now.layout) (ghost_state state.now) hostile result }
{
    let layout = &state.lists().layout;
    // The memory of every layout is accepted: it ends below the page of a refused call, and has the carve-out.
    let _ = layout.map.regions();
    let cpu = below(chance, layout.config.cpus);
    let step = settled_step(hostile, layout.map.carve().first.0);
    StepLine { cpu, step }
}

fn settled_step(hostile: bool, frame: u64) -> Step
    ensures { result ≡ (if hostile then Step.ShareHyp 0xffff_ffff_ffff_ffff else Step.OwnerOf frame) }
{
    if hostile {
        refused()
    } else {
        Step::OwnerOf { pfn: frame }
    }
}
