//! Members that can't be there with an earlier one.
ghost use Rattle.std.specs.Prelude.{◌≡◌, Bool, MatchOption};
ghost use Rattle.std.specs.List.{list_any};
ghost use Rattle.c_states.specs.Clashes.{do_frames_clash, do_runs_clash, do_tables_clash, have_one_cpu, have_one_guest, have_one_slot, HasNoClash, IsFirstClash};

use crate::layout::range_of;
use crate::members::{PlainCpu, PlainFrame, PlainGuest, PlainRun, PlainSlot, PlainTable};
use page_state::Page;

/// What can clash with others of its list.
pub(crate) trait Clash: Copy {
    ghost clash: { Self → Self → Bool };

    /// Whether both can't be there.
    fn clashes(self, other: Self) -> bool
        ensures { result ≡ clash self other };
}

impl Clash for PlainRun {
    ghost clash = { do_runs_clash };

    fn clashes(self, other: PlainRun) -> bool {
        let pages = range_of(self.page, self.count);
        let others = range_of(other.page, other.count);
        self.tree == other.tree
            && (0 < self.count && 0 < other.count)
            && (pages.contains(Page(other.page)) || others.contains(Page(self.page)))
    }
}

impl Clash for PlainTable {
    ghost clash = { do_tables_clash };

    fn clashes(self, other: PlainTable) -> bool {
        self.tree == other.tree
            && (self.height == other.height && self.index == other.index
                || self.frame == other.frame)
    }
}

impl Clash for PlainFrame {
    ghost clash = { do_frames_clash };

    fn clashes(self, other: PlainFrame) -> bool {
        self.pool == other.pool && self.frame == other.frame
    }
}

impl Clash for PlainSlot {
    ghost clash = { have_one_slot };

    fn clashes(self, other: PlainSlot) -> bool {
        self.slot == other.slot
    }
}

impl Clash for PlainGuest {
    ghost clash = { have_one_guest };

    fn clashes(self, other: PlainGuest) -> bool {
        self.slot == other.slot
    }
}

impl Clash for PlainCpu {
    ghost clash = { have_one_cpu };

    fn clashes(self, other: PlainCpu) -> bool {
        self.cpu == other.cpu
    }
}

/// Whether a member clashes with one of these.
fn clashes_with<T: Clash>(member: T, earlier: &[T]) -> bool
    ensures { result ≡ list_any (T.clash member) earlier.now }
{
    earlier.iter().any(|other| member.clashes(*other))
}

/// The index of the first member that clashes with an earlier one.
pub(crate) fn first_clash<T: Clash>(members: &[T]) -> Option<usize>
    ensures { MatchOption result (HasNoClash T.clash members.now) (IsFirstClash T.clash members.now) }
{
    for i in 0..members.len() {
        if clashes_with(members[i], &members[..i]) {
            return Some(i);
        }
    }
    None
}
