//! A CPU's own state.
ghost use Rattle.std.specs.Prelude.{◌≡◌};
ghost use Rattle.reference_model.specs.model.Changes.{cpu_by};

use page_state::PageRange;
use reference_model::{CpuChange, Loaded, Ticket, Update};

/// A CPU's own state.
#[derive(Clone, Copy, PartialEq)]
pub struct GhostCpu {
    /// The vCPU that it has loaded.
    pub loaded: Option<Loaded>,
    /// Its hand: a range of funded frames.
    pub hand: Option<PageRange>,
    /// Its ticket.
    pub ticket: Option<Ticket>,
}

ghost use Rattle.ghost_spec.specs.Views.{cpu_in};

impl GhostCpu {
    /// Nothing loaded, an empty hand and no ticket.
    pub const NONE: GhostCpu = GhostCpu {
        loaded: None,
        hand: None,
        ticket: None,
    };
}

/// The CPU's own state after a change.
pub(crate) fn changed(own: GhostCpu, change: CpuChange) -> GhostCpu
    ensures { cpu_in result ≡ cpu_by change (cpu_in own) }
{
    let loaded = match change.loaded {
        Update::Keep => own.loaded,
        Update::Becomes(loaded) => loaded,
    };
    let hand = match change.hand {
        Update::Keep => own.hand,
        Update::Becomes(hand) => hand,
    };
    let ticket = match change.ticket {
        Update::Keep => own.ticket,
        Update::Becomes(ticket) => ticket,
    };
    GhostCpu {
        loaded,
        hand,
        ticket,
    }
}
