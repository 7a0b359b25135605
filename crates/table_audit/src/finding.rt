//! The findings of an audit, and their text.
ghost use Rattle.std.specs.Prelude.{Some};
ghost use Rattle.table_audit.specs.Texts.{text_of_finding, text_of_frame_or_none};

use ghost_judge::disagreement::{Disagreement, TreeOf};
use ghost_legal::Illegal;
use ghost_sound::Unsound;
use std::fmt;

/// A disagreement of the kept state and the trees that were found, or the reason why both aren't sound or legal.
#[derive(Clone, Copy, PartialEq)]
pub enum Finding {
    /// On a page of a map, or on the owner row of a frame.
    Differs(Disagreement),
    /// On the frame of the table at a block: the one of 512 ^ `height` pages at the index.
    Table {
        tree: TreeOf,
        height: u64,
        index: u64,
        kept: Option<u64>,
        walked: Option<u64>,
    },
    /// Nowhere: the kept state, which is the found one, isn't sound.
    Unsound(Unsound),
    /// Nowhere, and the maps are sound: but no run comes to this state.
    Illegal(Illegal),
}

/// A frame, if there is one.
#[derive(Clone, Copy)]
struct FrameOrNone(Option<u64>);

impl fmt::Display for FrameOrNone {
    ghost output = { λ frame. Some (text_of_frame_or_none frame.0) };

    fn fmt<W: fmt::Write>(&self, f: &mut fmt::Formatter<W>) -> fmt::Result {
        match self.0 {
            Some(frame) => write!(f, "0x{frame:x}"),
            None => f.write_str("-"),
        }
    }
}

/// The block of a table, and its two sides.
#[derive(Clone, Copy)]
struct Sides {
    height: u64,
    index: u64,
    kept: FrameOrNone,
    walked: FrameOrNone,
}

impl fmt::Display for Sides {
    ghost use Rattle.table_audit.specs.Texts.{text_of_sides};

    ghost output = { λ s. Some (text_of_sides s.height s.index s.kept.0 s.walked.0) };

    fn fmt<W: fmt::Write>(&self, f: &mut fmt::Formatter<W>) -> fmt::Result {
        let (height, index) = (self.height, self.index);
        let (kept, walked) = (self.kept, self.walked);
        write!(f, "{height} 0x{index:x} kept {kept} walked {walked}")
    }
}

impl fmt::Display for Finding {
    ghost output = { λ finding. Some (text_of_finding finding) };

    fn fmt<W: fmt::Write>(&self, f: &mut fmt::Formatter<W>) -> fmt::Result {
        match *self {
            Finding::Differs(told) => fmt::Display::fmt(&told, f),
            Finding::Table {
                tree,
                height,
                index,
                kept,
                walked,
            } => {
                let sides = Sides {
                    height,
                    index,
                    kept: FrameOrNone(kept),
                    walked: FrameOrNone(walked),
                };
                write!(f, "disagree table {tree} {sides}")
            }
            Finding::Unsound(why) => fmt::Display::fmt(&why, f),
            Finding::Illegal(why) => fmt::Display::fmt(&why, f),
        }
    }
}
