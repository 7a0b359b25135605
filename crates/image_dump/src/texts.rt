//! Parts of lines.
ghost use Rattle.std.specs.Prelude.{◌≡◌, Some};
ghost use Rattle.image_dump.specs.Texts.{text_of_access, text_of_execute, text_of_memory, text_of_state, text_of_marks};

use descriptor::State;
use image_findings::Claim;
use run_list::Run;
use std::fmt;
use table_words::{Access, Decoded, Execute, Mapping, Memory};
use walked_tables::Said;

/// A tree: `host`, `hyp` or `guest` with its number.
#[derive(Clone, Copy)]
pub(crate) struct TreeName(pub u64);

impl fmt::Display for TreeName {
    ghost use Rattle.image_dump.specs.Texts.{text_of_tree};

    ghost output = { λ tree. Some (text_of_tree tree.0) };

    fn fmt<W: fmt::Write>(&self, f: &mut fmt::Formatter<W>) -> fmt::Result {
        if self.0 == 0 {
            return f.write_str("host");
        }
        if self.0 == 1 {
            return f.write_str("hyp");
        }
        let number = self.0 - 2;
        write!(f, "guest {number}")
    }
}

fn access_text(access: Access) -> &'static str
    ensures { result.now ≡ text_of_access access }
{
    match access {
        Access::Neither => "--",
        Access::ReadOnly => "r-",
        Access::WriteOnly => "-w",
        Access::ReadWrite => "rw",
    }
}

fn execute_text(execute: Execute) -> &'static str
    ensures { result.now ≡ text_of_execute execute }
{
    match execute {
        Execute::Nobody => "-",
        Execute::Everybody => "x",
        Execute::UnprivilegedAlone => "x(el0)",
        Execute::PrivilegedAlone => "x(el1)",
    }
}

fn memory_text(memory: Memory) -> &'static str
    ensures { result.now ≡ text_of_memory memory }
{
    match memory {
        Memory::WriteBack => "normal",
        Memory::Uncached => "uncached",
        Memory::FromStage1 => "as-stage-1",
        Memory::Registers => "device",
    }
}

fn state_text(state: Option<State>) -> &'static str
    ensures { result.now ≡ text_of_state state }
{
    match state {
        Some(State::Owned) => " owned",
        Some(State::SharedOwned) => " shared",
        Some(State::SharedBorrowed) => " borrowed",
        None => "",
    }
}

fn marks_text(guarded: bool, aged: bool) -> &'static str
    ensures { result.now ≡ text_of_marks guarded aged }
{
    match (guarded, aged) {
        (false, false) => "",
        (true, false) => " guarded",
        (false, true) => " aged",
        (true, true) => " guarded aged",
    }
}

/// What a leaf says but for its frame.
#[derive(Clone, Copy)]
struct LeafText(Mapping);

impl fmt::Display for LeafText {
    ghost use Rattle.image_dump.specs.Texts.{text_of_leaf};

    ghost output = { λ leaf. Some (text_of_leaf leaf.0) };

    fn fmt<W: fmt::Write>(&self, f: &mut fmt::Formatter<W>) -> fmt::Result {
        let access = access_text(self.0.access);
        let execute = execute_text(self.0.execute);
        let memory = memory_text(self.0.memory);
        let rest = StateText(self.0);
        write!(f, "{access}{execute} {memory}{rest}")
    }
}

/// A leaf's state and marks.
#[derive(Clone, Copy)]
struct StateText(Mapping);

impl fmt::Display for StateText {
    ghost use Rattle.image_dump.specs.Texts.{text_of_rest};

    ghost output = { λ leaf. Some (text_of_rest leaf.0) };

    fn fmt<W: fmt::Write>(&self, f: &mut fmt::Formatter<W>) -> fmt::Result {
        let state = state_text(self.0.state);
        let marks = marks_text(self.0.guarded, self.0.aged);
        write!(f, "{state}{marks}")
    }
}

/// What pages have.
#[derive(Clone, Copy)]
struct ValueText(Decoded);

impl fmt::Display for ValueText {
    ghost use Rattle.image_dump.specs.Texts.{text_of_value};

    ghost output = { λ value. Some (text_of_value value.0) };

    fn fmt<W: fmt::Write>(&self, f: &mut fmt::Formatter<W>) -> fmt::Result {
        match self.0 {
            Decoded::Malformed => f.write_str("malformed"),
            Decoded::Unmapped => f.write_str("unmapped"),
            Decoded::Annotated { owner, guest } => match guest {
                None => {
                    let number = owner.0;
                    write!(f, "owner {number}")
                }
                Some(guest) => {
                    let (handle, gfn) = (guest.handle, guest.gfn);
                    write!(f, "owner guest handle 0x{handle:x} page 0x{gfn:x}")
                }
            },
            Decoded::Poisoned => f.write_str("poisoned"),
            Decoded::Locked => f.write_str("locked"),
            Decoded::Cleared(mapping) => {
                let frame = mapping.frame.0;
                let leaf = LeafText(mapping);
                write!(f, "cleared 0x{frame:x} {leaf}")
            }
            Decoded::Leaf(mapping) => {
                let frame = mapping.frame.0;
                let leaf = LeafText(mapping);
                write!(f, "frame 0x{frame:x} {leaf}")
            }
            Decoded::Table(frame) => {
                let frame = frame.0;
                write!(f, "no-table 0x{frame:x}")
            }
        }
    }
}

/// A run of pages.
#[derive(Clone, Copy)]
pub(crate) struct RunText(pub Run<Said>);

impl fmt::Display for RunText {
    ghost use Rattle.image_dump.specs.Texts.{text_of_run};

    ghost output = { λ run. Some (text_of_run run.0) };

    fn fmt<W: fmt::Write>(&self, f: &mut fmt::Formatter<W>) -> fmt::Result {
        let page = self.0.pages.first.0;
        let count = self.0.pages.count;
        let value = ValueText(self.0.value.0);
        write!(f, "0x{page:x} 0x{count:x} {value}")
    }
}

/// A claim as text: its tree, and the page of the claim; `by host` if an annotation of the host names the tree.
#[derive(Clone, Copy)]
pub(crate) struct ClaimText(pub Claim);

impl fmt::Display for ClaimText {
    ghost use Rattle.image_dump.specs.Texts.{text_of_claim};

    ghost output = { λ claim. Some (text_of_claim claim.0) };

    fn fmt<W: fmt::Write>(&self, f: &mut fmt::Formatter<W>) -> fmt::Result {
        let tree = TreeName(self.0.tree);
        let page = self.0.page;
        if self.0.named {
            write!(f, "{tree} by host 0x{page:x}")
        } else {
            write!(f, "{tree} 0x{page:x}")
        }
    }
}
