//! The path of a page in a tree.
ghost use Rattle.std.specs.Prelude.{◌≡◌, ◌≤◌, ◌-◌, ◌+◌, option_map};
ghost use Rattle.table_tree.specs.OnPage.{path_of};
ghost use Rattle.trace_audit.specs.Paths.{path_on as path_on_level};

use arrayvec::ArrayVec;
use page_state::Geometry;

/// The indices of a page in the tables from a level, 0 to 3, down to another.
fn path_to(page: u64, top: u32, level: u32) -> ArrayVec<u16, 4>
    requires first { top ≤ 3 }
    requires order { top ≤ level }
    requires last { level ≤ 3 }
    ensures { result.items ≡ path_of page (3 - top) (level + 1 - top) }
{
    let mut path = ArrayVec::new();
    for upper in top..level + 1 {
        path.push(((page >> (9 * (3 - upper))) % 512) as u16);
    }
    path
}

/// The path of a page down to a level. None if the page isn't an input page, or the level isn't one of the tree's.
#[tactic(auto, unfolding(crate::specs::Paths::path_on))]
pub(crate) fn path_on(geometry: Geometry, page: u64, level: u64) -> Option<ArrayVec<u16, 4>>
    ensures { option_map (λ p. p.items) result ≡ path_on_level geometry page level }
{
    let top = 3 - geometry.depth();
    if page >= geometry.pages() || level < u64::from(top) || level > 3 {
        return None;
    }
    Some(path_to(page, top, level as u32))
}
