//! What a step looks at.
ghost use Rattle.std.specs.Prelude.{Some};
ghost use Rattle.trace_explain.specs.Texts.{name_of};

use std::fmt;

/// A place that a step may look at and change.
#[derive(Clone, Copy)]
pub enum Place {
    /// The host's entry of a page.
    Host(u64),
    /// The hypervisor's entry of a page.
    Hyp(u64),
    /// A guest's entry of a page.
    GuestPage { slot: u64, page: u64 },
    /// The owner row of a frame.
    Owner(u64),
    /// The number of free frames of the shared pool.
    FreeShared,
    /// The guest in a slot.
    Guest(u64),
    /// A slot of the VM table.
    Vm(u64),
    /// The CPU that has a vCPU loaded.
    Vcpu { slot: u64, vcpu: u64 },
    /// The vCPU that the CPU of the step has loaded.
    Loaded,
    /// The funded frames in its hand.
    Hand,
    /// Its ticket.
    Ticket,
}

impl fmt::Display for Place {
    ghost output = { λ place. Some (name_of place) };

    fn fmt<W: fmt::Write>(&self, f: &mut fmt::Formatter<W>) -> fmt::Result {
        match self {
            Place::Host(page) => write!(f, "host 0x{page:x}"),
            Place::Hyp(page) => write!(f, "hyp 0x{page:x}"),
            Place::GuestPage { slot, page } => write!(f, "guest {slot} 0x{page:x}"),
            Place::Owner(frame) => write!(f, "owner 0x{frame:x}"),
            Place::FreeShared => f.write_str("free shared"),
            Place::Guest(slot) => write!(f, "guest {slot}"),
            Place::Vm(slot) => write!(f, "vm {slot}"),
            Place::Vcpu { slot, vcpu } => write!(f, "vm {slot} vcpu {vcpu}"),
            Place::Loaded => f.write_str("loaded"),
            Place::Hand => f.write_str("hand"),
            Place::Ticket => f.write_str("ticket"),
        }
    }
}
