//! The path of a page.
ghost use Rattle.std.specs.Prelude.{◌≡◌, ◌≤◌, ◌-◌, ◌+◌};
ghost use Rattle.table_tree.specs.OnPage.{path_of};

use crate::word::index_of;
use arrayvec::ArrayVec;

/// The indices of a page in the tables from a level, 0 to 3, down to another.
pub(crate) fn path_to(page: u64, top: u32, level: u32) -> ArrayVec<u16, 4>
    requires order { top ≤ level }
    requires last { level ≤ 3 }
    ensures { result.items ≡ path_of page (3 - top) (level + 1 - top) }
{
    let mut path = ArrayVec::new();
    for upper in top..level + 1 {
        path.push(index_of(3 - upper, page) as u16);
    }
    path
}
