//! The state at boot.
ghost use Rattle.std.specs.Prelude.{◌≡◌, ◌≤◌, IfErr, IfOk, OnOk};
ghost use Rattle.page_state.specs.LayoutView.{layout_of as layout_of_code};
ghost use Rattle.reference_model.specs.model.Boot.{CanBoot, boot};
ghost use Rattle.ghost_spec.specs.States.{ghost_state};
ghost use Rattle.c_calls.specs.Boots.{CanBootPlain, HasCpus, IsBootState, IsUnbooted};
ghost use Rattle.c_states.specs.Layouts.{layout_from_c};
ghost use Rattle.c_states.specs.Told.{lists_owned};

use c_states::{PlainLayout, PlainLayoutFault, PlainLists, layout_of, lists_of};
use ghost_spec::start::start;
use ghost_spec::state::Ghost;
use std::alloc::Global;

/// Why a layout doesn't boot. The first that is true is answered, in the order of the variants.
#[derive(Clone, Copy, PartialEq)]
pub enum Unbooted {
    /// The layout is refused.
    Layout(PlainLayoutFault),
    /// CPUs that aren't 1 to 64.
    Cpus,
    /// The carve-out has fewer frames than boot needs tables.
    CarveSmall,
    /// Memory was refused.
    NoMemory,
}

/// The state at boot.
pub(crate) fn booted(alloc: Global, layout: &PlainLayout<'_>) -> Result<Ghost, Unbooted>
    ensures can { OnOk result (CanBootPlain layout.now layout.now.regions.now) }
    ensures state { IfOk result (λ g. ghost_state g ≡ boot (layout_from_c layout.now layout.now.regions.now)) }
    ensures cpus { IfOk result (λ g. g.layout.config.cpus ≡ layout.now.cpus) }
    ensures fault { IfErr result (IsUnbooted layout.now layout.now.regions.now) }
{
    let layout = match layout_of(alloc, layout) {
        Ok(layout) => layout,
        Err(fault) => return Err(Unbooted::Layout(fault)),
    };
    if layout.config.cpus < 1 || layout.config.cpus > 64 {
        drop(layout);
        return Err(Unbooted::Cpus);
    }
    match start(alloc, layout) {
        Ok(Some(state)) => Ok(state),
        Ok(None) => Err(Unbooted::CarveSmall),
        Err(_) => Err(Unbooted::NoMemory),
    }
}

/// The lists of the state at boot: all 64 slots and guests and all CPUs, and of each map the fewest runs.
pub fn boot_lists(alloc: Global, layout: &PlainLayout<'_>) -> Result<PlainLists, Unbooted>
    ensures booted { IfOk result (λ p. IsBootState layout.now layout.now.regions.now (lists_owned p)) }
    ensures fault { IfErr result (IsUnbooted layout.now layout.now.regions.now) }
{
    let state = booted(alloc, layout)?;
    let lists = lists_of(alloc, &state);
    drop(state);
    match lists {
        Ok(lists) => Ok(lists),
        Err(_) => Err(Unbooted::NoMemory),
    }
}
