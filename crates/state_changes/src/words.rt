//! The text of the CPUs' own states.
ghost use Rattle.std.specs.Prelude.{◌≡◌, IfOk, Some, string_bytes};
ghost use Rattle.state_changes.specs.Texts.{text_of_hand, text_of_holder, text_of_loaded, text_of_stage, text_of_ticket};

use call_table::vm_kind_word;
use page_state::PageRange;
use reference_model::{Loaded, Stage, Ticket};
use std::alloc::{AllocError, Global};
use std::fmt;

/// The CPU that has a vCPU loaded.
pub fn cpu_text(global: Global, holder: Option<u64>) -> Result<String, AllocError>
    ensures { IfOk result (λ text. string_bytes text ≡ text_of_holder holder) }
{
    match holder {
        Some(cpu) => format!(in global; "cpu {cpu}"),
        None => String::from_str(global, "no cpu"),
    }
}

/// The vCPU that a CPU has loaded.
pub fn loaded_text(global: Global, loaded: Option<Loaded>) -> Result<String, AllocError>
    ensures { IfOk result (λ text. string_bytes text ≡ text_of_loaded loaded) }
{
    match loaded {
        Some(loaded) => {
            let line = LoadedLine(loaded);
            format!(in global; "{line}")
        }
        None => String::from_str(global, "nothing"),
    }
}

/// Its hand.
pub fn hand_text(global: Global, hand: Option<PageRange>) -> Result<String, AllocError>
    ensures { IfOk result (λ text. string_bytes text ≡ text_of_hand hand) }
{
    match hand {
        Some(frames) => {
            let line = HandLine(frames);
            format!(in global; "{line}")
        }
        None => String::from_str(global, "empty"),
    }
}

/// Its ticket.
pub fn ticket_text(global: Global, ticket: Option<Ticket>) -> Result<String, AllocError>
    ensures { IfOk result (λ text. string_bytes text ≡ text_of_ticket ticket) }
{
    match ticket {
        Some(ticket) => {
            let line = TicketLine(ticket);
            format!(in global; "{line}")
        }
        None => String::from_str(global, "none"),
    }
}

/// A vCPU that is loaded.
#[derive(Clone, Copy)]
struct LoadedLine(Loaded);

impl fmt::Display for LoadedLine {
    ghost output = { λ line. Some (text_of_loaded (Some line.0)) };

    fn fmt<W: fmt::Write>(&self, f: &mut fmt::Formatter<W>) -> fmt::Result {
        write!(f, "{} vcpu {}", self.0.vm, self.0.vcpu)
    }
}

/// A hand that isn't empty.
#[derive(Clone, Copy)]
struct HandLine(PageRange);

impl fmt::Display for HandLine {
    ghost output = { λ line. Some (text_of_hand (Some line.0)) };

    fn fmt<W: fmt::Write>(&self, f: &mut fmt::Formatter<W>) -> fmt::Result {
        write!(f, "0x{:x} {}", self.0.first.0, self.0.count)
    }
}

/// A ticket that a CPU has.
#[derive(Clone, Copy)]
struct TicketLine(Ticket);

impl fmt::Display for TicketLine {
    ghost output = { λ line. Some (text_of_ticket (Some line.0)) };

    fn fmt<W: fmt::Write>(&self, f: &mut fmt::Formatter<W>) -> fmt::Result {
        let kind = vm_kind_word(self.0.kind);
        let stage = stage_word(self.0.stage);
        write!(f, "{} {kind} {stage}", self.0.vm)
    }
}

fn stage_word(stage: Stage) -> &'static str
    ensures { result.now ≡ text_of_stage stage }
{
    match stage {
        Stage::Booked => "booked",
        Stage::Installed => "installed",
        Stage::Closing => "closing",
        Stage::Dying => "dying",
        Stage::Finished => "finished",
    }
}
