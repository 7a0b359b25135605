//! What pages have.
ghost use Rattle.std.specs.Prelude.{◌≡◌};
ghost use Rattle.walked_tables.specs.Values.{advance_said, CanGoOn};
ghost use Rattle.walked_tables.specs.Advancing.{said_laws};

use descriptor::Frame;
use run_list::Advance;
use table_words::{Decoded, Mapping};

/// What the last word on a page's path says, for that page: a leaf's frame is the page's own.
#[derive(Clone, Copy, PartialEq, Eq)]
pub struct Said(pub Decoded);

impl Advance for Said {
    ghost advance = { advance_said };

    ghost CanAdvance = { CanGoOn };

    ghost laws = { said_laws };

    fn advanced(self, pages: u64) -> Said {
        match self.0 {
            Decoded::Leaf(mapping) => Said(Decoded::Leaf(Mapping {
                frame: Frame(mapping.frame.0 + pages),
                ..mapping
            })),
            Decoded::Malformed
            | Decoded::Unmapped
            | Decoded::Annotated { .. }
            | Decoded::Poisoned
            | Decoded::Locked
            | Decoded::Cleared(_)
            | Decoded::Table(_) => self,
        }
    }
}
