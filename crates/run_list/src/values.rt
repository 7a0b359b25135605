//! The values of the two lists: targets of pages, and owner rows of frames.
ghost use Rattle.std.specs.Prelude.{◌≡◌};
ghost use Rattle.page_state.specs.Entries.{advance_target};
ghost use Rattle.page_state.specs.Rows.{advance_row};
ghost use Rattle.run_list.specs.Targets.{HasFrameBelow, target_laws};
ghost use Rattle.page_state.specs.Rows.{HasPageBelow};
ghost use Rattle.run_list.specs.OwnerRows.{row_laws};

use crate::Advance;
use page_state::{Lent, Row, Target};

impl Advance for Target {
    ghost advance = { advance_target };

    ghost CanAdvance = { HasFrameBelow };

    ghost laws = { target_laws };

    fn advanced(self, pages: u64) -> Target {
        self.advance(pages)
    }
}

impl Advance for Row {
    ghost advance = { advance_row };

    ghost CanAdvance = { HasPageBelow };

    ghost laws = { row_laws };

    fn advanced(self, pages: u64) -> Row {
        let lent = match self.lent {
            Some(lent) => Some(Lent {
                owner: lent.owner,
                page: lent.page + pages,
            }),
            None => None,
        };
        Row {
            owner: self.owner,
            lent,
            usage: self.usage,
        }
    }
}
