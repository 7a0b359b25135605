//! How it is written.
ghost use Rattle.std.specs.Prelude.{◌≡◌, Some};
ghost use Rattle.ghost_legal.specs.Texts.{text_of_block, text_of_facts, text_of_ghost_fault, text_of_guest_page, text_of_had, text_of_holder, text_of_illegal, text_of_memory, text_of_misfit, text_of_slot_fault, text_of_unlawful, text_of_vcpu};
ghost use Rattle.ghost_legal.specs.TreeNames.{tree_named};

use crate::finding::{Facts, Holder, Illegal, TreeBlock, Unlawful};
use ghost_coarse::Misfit;
use ghost_judge::disagreement::TreeOf;
use ghost_slots::SlotFault;
use ghost_spec::filled::GhostFault;
use page_state::state_word;
use std::fmt;

/// Whose tree has a number.
fn tree_of(tree: u64) -> TreeOf
    ensures { result ≡ tree_named tree }
{
    if tree == 0 {
        TreeOf::Host
    } else if tree == 1 {
        TreeOf::Hyp
    } else {
        TreeOf::Guest(tree - 2)
    }
}

impl fmt::Display for TreeBlock {
    ghost output = { λ at. Some (text_of_block at) };

    fn fmt<W: fmt::Write>(&self, f: &mut fmt::Formatter<W>) -> fmt::Result {
        let tree = tree_of(self.tree);
        let (depth, index) = self.block;
        write!(f, "table {tree} {depth} 0x{index:x}")
    }
}

/// A page of a guest.
#[derive(Clone, Copy)]
struct PageOfGuest(u64, u64);

impl fmt::Display for PageOfGuest {
    ghost output = { λ at. Some (text_of_guest_page at.0 at.1) };

    fn fmt<W: fmt::Write>(&self, f: &mut fmt::Formatter<W>) -> fmt::Result {
        let (slot, page) = (self.0, self.1);
        write!(f, "guest {slot} 0x{page:x}")
    }
}

impl fmt::Display for Holder {
    ghost output = { λ holder. Some (text_of_holder holder) };

    fn fmt<W: fmt::Write>(&self, f: &mut fmt::Formatter<W>) -> fmt::Result {
        match *self {
            Holder::SharedPool => f.write_str("shared pool"),
            Holder::VmPool(slot) => write!(f, "pool {slot}"),
            Holder::Table(at) => write!(f, "{at}"),
            Holder::Hand(cpu) => write!(f, "hand of cpu {cpu}"),
            Holder::Guest { slot, page, state } => {
                let at = PageOfGuest(slot, page);
                let word = state_word(state);
                write!(f, "{at} {word}")
            }
        }
    }
}

/// The holder of a frame, or none.
#[derive(Clone, Copy)]
struct Had(Option<Holder>);

impl fmt::Display for Had {
    ghost output = { λ had. Some (text_of_had had.0) };

    fn fmt<W: fmt::Write>(&self, f: &mut fmt::Formatter<W>) -> fmt::Result {
        match self.0 {
            Some(holder) => write!(f, ", {holder}"),
            None => f.write_str(""),
        }
    }
}

/// The row of a frame, if it is memory.
#[derive(Clone, Copy)]
struct MemoryRow(Facts);

impl fmt::Display for MemoryRow {
    ghost output = { λ facts. Some (text_of_memory facts.0) };

    fn fmt<W: fmt::Write>(&self, f: &mut fmt::Formatter<W>) -> fmt::Result {
        if self.0.memory {
            let row = self.0.row;
            write!(f, "row {row}")
        } else {
            f.write_str("no memory")
        }
    }
}

impl fmt::Display for Facts {
    ghost output = { λ facts. Some (text_of_facts facts) };

    fn fmt<W: fmt::Write>(&self, f: &mut fmt::Formatter<W>) -> fmt::Result {
        let (host, hyp) = (self.host, self.hyp);
        let row = MemoryRow(*self);
        let had = Had(self.holder);
        write!(f, "host {host}, hyp {hyp}, {row}{had}")
    }
}

/// A vCPU of a slot.
#[derive(Clone, Copy)]
struct VcpuOfSlot(u64, u64);

impl fmt::Display for VcpuOfSlot {
    ghost output = { λ at. Some (text_of_vcpu at.0 at.1) };

    fn fmt<W: fmt::Write>(&self, f: &mut fmt::Formatter<W>) -> fmt::Result {
        let (slot, vcpu) = (self.0, self.1);
        write!(f, "slot {slot} vcpu {vcpu}")
    }
}

/// A fault of slots.
#[derive(Clone, Copy)]
struct SlotText(SlotFault);

impl fmt::Display for SlotText {
    ghost output = { λ fault. Some (text_of_slot_fault fault.0) };

    fn fmt<W: fmt::Write>(&self, f: &mut fmt::Formatter<W>) -> fmt::Result {
        match self.0 {
            SlotFault::Load(cpu) => write!(f, "cpu {cpu}: its slot has no such vcpu loaded"),
            SlotFault::Hand(cpu) => write!(f, "cpu {cpu}: hand without a frame"),
            SlotFault::Ticket(cpu) => write!(f, "cpu {cpu}: ticket does not fit its slot"),
            SlotFault::Vcpu(slot, vcpu) => {
                let at = VcpuOfSlot(slot, vcpu);
                write!(f, "{at}: not loaded on that cpu")
            }
            SlotFault::Guest(slot) => write!(f, "slot {slot}: guest does not fit it"),
            SlotFault::Tickets(slot) => write!(f, "slot {slot}: not exactly one ticket"),
        }
    }
}

/// Where a tree isn't the coarsest of its map.
#[derive(Clone, Copy)]
struct MisfitText(u64, Misfit);

impl fmt::Display for MisfitText {
    ghost output = { λ text. Some (text_of_misfit text.0 text.1) };

    fn fmt<W: fmt::Write>(&self, f: &mut fmt::Formatter<W>) -> fmt::Result {
        let tree = self.0;
        match self.1 {
            Misfit::Needless(block) => {
                let at = TreeBlock { tree, block };
                write!(f, "needless {at}")
            }
            Misfit::Lacking(block) => {
                let at = TreeBlock { tree, block };
                write!(f, "missing {at}")
            }
        }
    }
}

impl fmt::Display for Illegal {
    ghost output = { λ told. Some (text_of_illegal told) };

    fn fmt<W: fmt::Write>(&self, f: &mut fmt::Formatter<W>) -> fmt::Result {
        match *self {
            Illegal::Slots(fault) => fmt::Display::fmt(&SlotText(fault), f),
            Illegal::Guest { slot } => {
                write!(f, "guest {slot}: Empty with something, or without a root")
            }
            Illegal::Outside(at) => write!(f, "outside {at}"),
            Illegal::GuestPage { slot, page } => {
                let at = PageOfGuest(slot, page);
                write!(f, "{at}: no memory page, or past the input pages")
            }
            Illegal::HypPage { page } => write!(f, "hyp 0x{page:x}: below the pages of frames"),
            Illegal::FarFrame { frame, holder } => write!(f, "no memory 0x{frame:x}: {holder}"),
            Illegal::HeldTwice { frame, one, other } => {
                write!(f, "held twice 0x{frame:x}: {one}, {other}")
            }
            Illegal::Frame { frame, facts } => write!(f, "no condition 0x{frame:x}: {facts}"),
            Illegal::Tree { tree, misfit } => fmt::Display::fmt(&MisfitText(tree, misfit), f),
        }
    }
}

/// Why lists make no state.
fn ghost_fault_words(fault: GhostFault) -> &'static str
    ensures { result.now ≡ text_of_ghost_fault fault }
{
    match fault {
        GhostFault::WrongCount => "a list has not its length",
        GhostFault::TooLarge => "a page, a frame or a slot is too large",
        GhostFault::Overlap => "two runs share a page",
        GhostFault::TableTwice => "two tables of a tree have one block or one frame",
        GhostFault::FrameTwice => "a pool has a frame twice",
        GhostFault::NoMemory => "out of memory",
    }
}

impl fmt::Display for Unlawful {
    ghost output = { λ why. Some (text_of_unlawful why) };

    fn fmt<W: fmt::Write>(&self, f: &mut fmt::Formatter<W>) -> fmt::Result {
        match *self {
            Unlawful::NoState(fault) => {
                let words = ghost_fault_words(fault);
                write!(f, "no state: {words}")
            }
            Unlawful::Illegal(why) => fmt::Display::fmt(&why, f),
        }
    }
}
