//! A CPU's own state.
ghost use Rattle.std.specs.Prelude.{OnOk, codes};
ghost use Rattle.ghost_spec.specs.Views.{cpu_in};
ghost use Rattle.state_changes.specs.Changed.{ReportsCpu, ReportsValue};
ghost use Rattle.state_changes.specs.Texts.{text_of_hand, text_of_loaded, text_of_ticket};
ghost use Rattle.state_changes.specs.Together.{Adds};

use crate::lines::add_change;
use crate::words::{hand_text, loaded_text, ticket_text};
use ghost_spec::cpu::GhostCpu;
use page_state::PageRange;
use reference_model::{Loaded, Ticket};
use std::alloc::{AllocError, Global};

/// Adds the changes of a CPU's own state.
pub(crate) fn add_cpu(
    text: &mut Vec<u8>,
    global: Global,
    before: GhostCpu,
    after: GhostCpu,
) -> Result<(), AllocError>
    ensures { OnOk result (Adds (ReportsCpu (cpu_in before) (cpu_in after)) text.old.items text.new.items) }
{
    add_loaded(text, global, before.loaded, after.loaded)?;
    add_hand(text, global, before.hand, after.hand)?;
    add_ticket(text, global, before.ticket, after.ticket)?;
    Ok(())
}

fn add_loaded(
    text: &mut Vec<u8>,
    global: Global,
    before: Option<Loaded>,
    after: Option<Loaded>,
) -> Result<(), AllocError>
    ensures { OnOk result
        (Adds
        (ReportsValue (codes "loaded") text_of_loaded before after) text.old.items
        text.new.items) }
{
    if before == after {
        return Ok(());
    }
    let was = loaded_text(global, before)?;
    let is = loaded_text(global, after)?;
    add_change(text, b"loaded", was.as_bytes(), is.as_bytes())?;
    Ok(())
}

fn add_hand(
    text: &mut Vec<u8>,
    global: Global,
    before: Option<PageRange>,
    after: Option<PageRange>,
) -> Result<(), AllocError>
    ensures { OnOk result
        (Adds
        (ReportsValue (codes "hand") text_of_hand before after) text.old.items text.new.items) }
{
    if before == after {
        return Ok(());
    }
    let was = hand_text(global, before)?;
    let is = hand_text(global, after)?;
    add_change(text, b"hand", was.as_bytes(), is.as_bytes())?;
    Ok(())
}

fn add_ticket(
    text: &mut Vec<u8>,
    global: Global,
    before: Option<Ticket>,
    after: Option<Ticket>,
) -> Result<(), AllocError>
    ensures { OnOk result
        (Adds
        (ReportsValue (codes "ticket") text_of_ticket before after) text.old.items
        text.new.items) }
{
    if before == after {
        return Ok(());
    }
    let was = ticket_text(global, before)?;
    let is = ticket_text(global, after)?;
    add_change(text, b"ticket", was.as_bytes(), is.as_bytes())?;
    Ok(())
}
