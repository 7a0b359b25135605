//! Roots.
ghost use Rattle.std.specs.Prelude.{◌≡◌, ◌≤◌, ◌↔◌, All, IsTrue, MatchOption, None};
ghost use Rattle.page_state.specs.Geometries.{levels_below};
ghost use Rattle.c_profiles.specs.Numbers.{profile_from_c};
ghost use Rattle.c_trees.specs.Roots.{count_of as count_of_root, depth_of as depth_of_root, is_page_count, profile_in, IsGoodRoot, IsLowRange, IsRootFault, HasLowFrames};

use c_profiles::profile_of;
use page_state::Geometry;
use table_words::{Profile, model};

/// A range of pages.
#[repr(C)]
#[derive(Clone, Copy)]
pub struct PlainRange {
    pub first: u64,
    pub count: u64,
}

/// The root of a tree.
#[repr(C)]
#[derive(Clone, Copy)]
pub struct PlainRoot<'a> {
    /// 0 the host's, 1 the hypervisor's, 2 + v that of the guest in slot v.
    pub tree: u64,
    /// The frame of the root table, or of the first of its pages.
    pub frame: u64,
    /// The number of the profile of its words, 0 for the model's.
    pub profile: u64,
    /// How many levels of tables there are, up to 4; 0 for those of the layout's geometry.
    pub levels: u64,
    /// How many pages the root has: 1, 2, 4, 8 or 16; 0 for 1.
    pub pages: u64,
    /// Pages that are left out.
    pub skips: &'a [PlainRange],
}

/// Why a root can't be. The first that is true is answered, in the order of the variants.
#[derive(Clone, Copy, PartialEq)]
pub enum RootFault {
    /// Its tree has no such profile.
    Profile,
    /// It has over 4 levels.
    Levels,
    /// It has another number of pages, or they end over frame 2^64.
    Pages,
    /// A range that is left out has no page, or ends over page 2^52.
    Skips,
}

/// A page beyond all.
const PAGES: u64 = 1 << 52;

/// Whether a range has a page and is low.
fn is_low_range(range: PlainRange) -> bool
    ensures { IsTrue result ↔ IsLowRange range }
{
    range.count > 0 && range.first <= PAGES && range.count <= PAGES - range.first
}

/// Whether a root may have so many pages, 0 for 1.
fn is_count(pages: u64) -> bool
    ensures { result ≡ is_page_count pages }
{
    pages == 0 || pages == 1 || pages == 2 || pages == 4 || pages == 8 || pages == 16
}

/// The number of a root's pages.
pub(crate) fn count_of(root: &PlainRoot<'_>) -> u64
    ensures count { result ≡ count_of_root root.now }
    ensures some { 1 ≤ result }
{
    if root.pages == 0 { 1 } else { root.pages }
}

/// Whether a root's pages are at frames of 64 bits.
fn has_low_frames(root: &PlainRoot<'_>) -> bool
    ensures { IsTrue result ↔ HasLowFrames root.now }
{
    count_of(root) - 1 <= u64::MAX - root.frame
}

/// Why a root can't be.
pub(crate) fn root_fault(root: &PlainRoot<'_>) -> Option<RootFault>
    ensures { MatchOption result (IsGoodRoot root.now) (IsRootFault root.now) }
{
    if profile_of(root.tree, root.profile).is_none() {
        return Some(RootFault::Profile);
    }
    if root.levels > 4 {
        return Some(RootFault::Levels);
    }
    if !is_count(root.pages) {
        return Some(RootFault::Pages);
    }
    if !has_low_frames(root) {
        return Some(RootFault::Pages);
    }
    if !root.skips.iter().all(|range| is_low_range(*range)) {
        return Some(RootFault::Skips);
    }
    None
}

/// The profile of a root's words.
pub(crate) fn profile_of_root(root: &PlainRoot<'_>) -> Profile
    ensures { result ≡ profile_in root.now }
{
    match profile_of(root.tree, root.profile) {
        Some(profile) => profile,
        None => model(),
    }
}

/// How many levels are below a root.
pub(crate) fn depth_of(geometry: Geometry, root: &PlainRoot<'_>) -> u32
    requires { root.now.levels ≤ 4 }
    ensures depth { result ≡ depth_of_root geometry root.now }
    ensures low { result ≤ 3 }
{
    match root.levels {
        0 => geometry.depth(),
        1 => 0,
        2 => 1,
        3 => 2,
        _ => 3,
    }
}
