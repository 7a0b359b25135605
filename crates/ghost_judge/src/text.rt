//! How disagreements are written.
ghost use Rattle.std.specs.Prelude.{◌≡◌, Some};
ghost use Rattle.ghost_judge.specs.Texts.{text_of_block, text_of_frame, text_of_head, text_of_part, text_of_phase, text_of_tree, text_of_told_row, text_of_sides, text_of_disagreement, text_of_judgement};

use crate::disagreement::{Disagreement, GuestHead, PartDifference, TreeOf};
use call_table::vm_kind_word;
use ghost_spec::parts::GhostPhase;
use ghost_trees::blocks::Block;
use page_state::Row;
use std::fmt;

impl fmt::Display for TreeOf {
    ghost output = { λ tree. Some (text_of_tree tree) };

    fn fmt<W: fmt::Write>(&self, f: &mut fmt::Formatter<W>) -> fmt::Result {
        match self {
            TreeOf::Host => f.write_str("host"),
            TreeOf::Hyp => f.write_str("hyp"),
            TreeOf::Guest(slot) => write!(f, "guest {slot}"),
        }
    }
}

/// A row in a disagreement.
#[derive(Clone, Copy)]
struct ToldRow(Row);

impl fmt::Display for ToldRow {
    ghost output = { λ row. Some (text_of_told_row row.0) };

    #[tactic(auto, unfolding(crate::specs::Texts::text_of_told_row))]
    fn fmt<W: fmt::Write>(&self, f: &mut fmt::Formatter<W>) -> fmt::Result {
        fmt::Display::fmt(&self.0, f)
    }
}

/// A frame, if there is one.
#[derive(Clone, Copy)]
struct MaybeFrame(Option<u64>);

impl fmt::Display for MaybeFrame {
    ghost output = { λ frame. Some (text_of_frame frame.0) };

    fn fmt<W: fmt::Write>(&self, f: &mut fmt::Formatter<W>) -> fmt::Result {
        match self.0 {
            Some(frame) => write!(f, "0x{frame:x}"),
            None => f.write_str("-"),
        }
    }
}

/// The word of a phase.
fn phase_word(phase: GhostPhase) -> &'static str
    ensures { result.now ≡ text_of_phase phase }
{
    match phase {
        GhostPhase::Empty => "empty",
        GhostPhase::Live => "live",
        GhostPhase::Dying => "dying",
    }
}

impl fmt::Display for GuestHead {
    ghost output = { λ head. Some (text_of_head head) };

    fn fmt<W: fmt::Write>(&self, f: &mut fmt::Formatter<W>) -> fmt::Result {
        let phase = phase_word(self.phase);
        let generation = self.generation;
        let kind = vm_kind_word(self.kind);
        write!(f, "{phase} generation {generation} {kind}")
    }
}

/// A table of a tree.
#[derive(Clone, Copy)]
struct TableAt(TreeOf, Block);

impl fmt::Display for TableAt {
    ghost output = { λ at. Some (text_of_block at.0 at.1) };

    fn fmt<W: fmt::Write>(&self, f: &mut fmt::Formatter<W>) -> fmt::Result {
        let tree = self.0;
        let (depth, index) = self.1;
        write!(f, "table {tree} {depth} 0x{index:x}")
    }
}

/// A difference of the Shared part or of a slot's guest, with the words before its two sides.
#[derive(Clone, Copy)]
struct PartSides {
    slot: Option<u64>,
    part: PartDifference,
    first: &'static str,
    second: &'static str,
}

impl fmt::Display for PartSides {
    ghost output = { λ told. Some (text_of_part told.slot told.first.now told.second.now told.part) };

    fn fmt<W: fmt::Write>(&self, f: &mut fmt::Formatter<W>) -> fmt::Result {
        let (first, second) = (self.first, self.second);
        match self.part {
            PartDifference::Free { kept, walked } => {
                let kept = MaybeFrame(kept);
                let walked = MaybeFrame(walked);
                match self.slot {
                    Some(slot) => {
                        write!(f, "disagree guest_free {slot}{first}{kept}{second}{walked}")
                    }
                    None => write!(f, "disagree free{first}{kept}{second}{walked}"),
                }
            }
            PartDifference::Table {
                tree,
                block,
                kept,
                walked,
            } => {
                let at = TableAt(tree, block);
                let kept = MaybeFrame(kept);
                let walked = MaybeFrame(walked);
                write!(f, "disagree {at}{first}{kept}{second}{walked}")
            }
            PartDifference::Head { kept, walked } => match self.slot {
                Some(slot) => {
                    write!(
                        f,
                        "disagree guest_state {slot}{first}{kept}{second}{walked}"
                    )
                }
                None => write!(f, "disagree state{first}{kept}{second}{walked}"),
            },
        }
    }
}

/// A disagreement, with the words before its two sides.
#[derive(Clone, Copy)]
struct Sides {
    told: Disagreement,
    first: &'static str,
    second: &'static str,
}

impl fmt::Display for Sides {
    ghost output = { λ sides. Some (text_of_sides sides.first.now sides.second.now sides.told) };

    fn fmt<W: fmt::Write>(&self, f: &mut fmt::Formatter<W>) -> fmt::Result {
        let (first, second) = (self.first, self.second);
        match self.told {
            Disagreement::Map {
                tree,
                page,
                kept,
                walked,
            } => write!(f, "disagree {tree} 0x{page:x}{first}{kept}{second}{walked}"),
            Disagreement::Owner {
                frame,
                kept,
                walked,
            } => {
                let kept = ToldRow(kept);
                let walked = ToldRow(walked);
                write!(f, "disagree owner 0x{frame:x}{first}{kept}{second}{walked}")
            }
            Disagreement::Reply { said, spec } => {
                write!(f, "disagree reply said {said} spec {spec}")
            }
            Disagreement::SharedPart(part) => {
                let slot = None;
                let sides = PartSides {
                    slot,
                    part,
                    first,
                    second,
                };
                fmt::Display::fmt(&sides, f)
            }
            Disagreement::GuestPart(slot, part) => {
                let slot = Some(slot);
                let sides = PartSides {
                    slot,
                    part,
                    first,
                    second,
                };
                fmt::Display::fmt(&sides, f)
            }
            Disagreement::Vm(slot) => write!(f, "disagree vm {slot}"),
            Disagreement::Cpu(cpu) => write!(f, "disagree cpu {cpu}"),
        }
    }
}

impl fmt::Display for Disagreement {
    ghost output = { λ d. Some (text_of_disagreement d) };

    fn fmt<W: fmt::Write>(&self, f: &mut fmt::Formatter<W>) -> fmt::Result {
        let sides = Sides {
            told: *self,
            first: " kept ",
            second: " walked ",
        };
        fmt::Display::fmt(&sides, f)
    }
}

impl fmt::Debug for Disagreement {
    fn fmt<W: fmt::Write>(&self, f: &mut fmt::Formatter<W>) -> fmt::Result {
        fmt::Display::fmt(self, f)
    }
}

/// A disagreement found by a judgement: the value in the state after a call, and the model's.
#[derive(Clone, Copy)]
pub struct Judgement(pub Disagreement);

impl fmt::Display for Judgement {
    ghost output = { λ j. Some (text_of_judgement j.0) };

    fn fmt<W: fmt::Write>(&self, f: &mut fmt::Formatter<W>) -> fmt::Result {
        let sides = Sides {
            told: self.0,
            first: " post ",
            second: " spec ",
        };
        fmt::Display::fmt(&sides, f)
    }
}
