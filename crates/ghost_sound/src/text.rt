//! How it is written.
ghost use Rattle.std.specs.Prelude.{◌≡◌, Some};
ghost use Rattle.ghost_sound.specs.Texts.{text_of_place, text_of_unsound, tree_named};

use crate::finding::{Place, Unsound};
use ghost_judge::disagreement::TreeOf;
use std::fmt;

/// Whose tree has a number.
fn tree_of(tree: u64) -> TreeOf
    ensures { result ≡ tree_named tree }
{
    if tree == 0 {
        TreeOf::Host
    } else if tree == 1 {
        TreeOf::Hyp
    } else {
        TreeOf::Guest(tree - 2)
    }
}

impl fmt::Display for Place {
    ghost output = { λ place. Some (text_of_place place) };

    fn fmt<W: fmt::Write>(&self, f: &mut fmt::Formatter<W>) -> fmt::Result {
        let tree = tree_of(self.tree);
        let page = self.page.0;
        write!(f, "{tree} 0x{page:x}")
    }
}

impl fmt::Display for Unsound {
    ghost output = { λ told. Some (text_of_unsound told) };

    fn fmt<W: fmt::Write>(&self, f: &mut fmt::Formatter<W>) -> fmt::Result {
        match *self {
            Unsound::TwoOwners { frame, one, other } => {
                write!(f, "two owners 0x{frame:x}: {one}, {other}")
            }
            Unsound::TwoBorrowers { frame, one, other } => {
                write!(f, "two borrowers 0x{frame:x}: {one}, {other}")
            }
            Unsound::NoShare { frame, borrower } => {
                write!(f, "no share 0x{frame:x}: {borrower}")
            }
        }
    }
}
