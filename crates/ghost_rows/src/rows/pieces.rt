//! Pieces of frames along which all lists go on as they begin.
ghost use Rattle.std.specs.Prelude.{◌≡◌, ℕ, ◌+◌, ◌-◌, ◌^◌, ◌≤◌, ◌<◌, nat_lt, if◌then◌else◌};
ghost use Rattle.page_state.specs.Rows.{advance_row, HasPageBelow};
ghost use Rattle.run_list.specs.Runs.{run_end, run_map, IsCoarsest, AreInReach};
ghost use Rattle.run_list.specs.Parts.{IsEndedAt};
ghost use Rattle.ghost_rows.specs.ListedRows.{lent_told, usage_told, number_told, is_of_host as is_of_host_told, is_plain as is_plain_use, is_quiet, owner_told, quiet_to, GoesOn, IsNear, IsStanding, IsCarried};

use page_state::{Lent, Owner, Row, Usage};
use run_list::{Advance, Run, RunList};

/// The known facts about frames: each list has a row for the frames with facts of its kind.
#[derive(Drop)]
pub(crate) struct Lists {
    /// The owners of annotated pages.
    pub(crate) annotated: RunList<Row>,
    /// To whom frames are lent.
    pub(crate) lent: RunList<Row>,
    /// Which guests share frames.
    pub(crate) shared: RunList<Row>,
    /// The uses of frames.
    pub(crate) used: RunList<Row>,
}

/// The place in a list at a frame.
#[derive(Clone, Copy)]
pub(crate) struct Stand {
    /// How many of its runs end at the frame or before it.
    pub(crate) place: usize,
    /// Whether the run at the place has the frame.
    inside: bool,
    /// A later frame: up to there the list goes on as it does at the frame.
    until: u64,
}

impl Stand {
    /// In front of all runs, and of each frame.
    const FIRST: Stand = Stand {
        place: 0,
        inside: false,
        until: 0,
    };
}

/// The place in each list at a frame.
#[derive(Clone, Copy)]
pub(crate) struct Stands {
    pub(crate) annotated: Stand,
    pub(crate) lent: Stand,
    shared: Stand,
    used: Stand,
}

impl Stands {
    /// In front of all runs, and of each frame.
    pub(crate) const FIRST: Stands = Stands {
        annotated: Stand::FIRST,
        lent: Stand::FIRST,
        shared: Stand::FIRST,
        used: Stand::FIRST,
    };
}

/// The sharer and the use of frames, from one frame up to another.
#[derive(Clone, Copy)]
pub(crate) struct Steady {
    /// A later frame: up to there it is so.
    pub(crate) until: u64,
    /// The guest that shares each of them, or the host if none does.
    pub(crate) sharer: Owner,
    /// The use of each of them.
    pub(crate) usage: Usage,
}

impl Steady {
    /// No frame is shared, and none is in use.
    #[inline(always)]
    pub(crate) fn quiet_to(until: u64) -> Steady
        ensures { result ≡ quiet_to until }
    {
        Steady {
            until,
            sharer: Owner(0),
            usage: Usage::Plain,
        }
    }

    /// The frame up to which none is shared and none in use: 0 if the first is.
    pub(crate) fn quiet(self) -> u64
        ensures { result ≡ (if is_quiet self then self.until else 0) }
    {
        if self.sharer.0 == 0 && is_plain(self.usage) {
            self.until
        } else {
            0
        }
    }
}

/// Whether a frame is in no use.
fn is_plain(usage: Usage) -> bool
    ensures { result ≡ is_plain_use usage }
{
    match usage {
        Usage::Plain => true,
        _ => false,
    }
}

/// To whom a row's frame is lent.
#[inline(always)]
fn lent_of(row: Option<Row>) -> Option<Lent>
    ensures { result ≡ lent_told row }
{
    match row {
        Some(row) => row.lent,
        None => None,
    }
}

/// The use of a row's frame.
#[inline(always)]
fn usage_of(row: Option<Row>) -> Usage
    ensures { result ≡ usage_told row }
{
    match row {
        Some(row) => row.usage,
        None => Usage::Plain,
    }
}

/// The number of the component to which a frame is lent, or else the host's.
#[inline(always)]
fn number_of(lent: Option<Lent>) -> Owner
    ensures { result.0 ≡ number_told lent }
{
    match lent {
        Some(lent) => lent.owner,
        None => Owner(0),
    }
}

/// Whether a frame is lent to the host.
#[inline(always)]
pub(crate) fn is_of_host(lent: Option<Lent>) -> bool
    ensures { result ≡ is_of_host_told lent }
{
    match lent {
        Some(lent) => lent.owner.0 == 0,
        None => false,
    }
}

/// The owner of a frame: that of its annotation; without one, the guest that shares it if the host borrows it, else the
/// host.
#[inline(always)]
fn owner_of(annotated: Option<Row>, lent: Option<Row>, shared: Option<Row>) -> Owner
    ensures { result.0 ≡ owner_told annotated lent shared }
{
    if let Some(row) = annotated {
        return row.owner;
    }
    if is_of_host(lent_of(lent)) {
        number_of(lent_of(shared))
    } else {
        Owner(0)
    }
}

/// Whether a run ends at a frame or before it.
#[inline(always)]
fn ends_by(run: &Run<Row>, frame: u64) -> bool
    ensures { result ≡ nat_lt (run_end run.now) (frame + 1) }
{
    let first = run.pages.first.0;
    first <= frame && run.pages.count <= frame - first
}

/// How many runs of a list end at a frame or before it, counted on from a place: the runs before that aren't looked at.
#[inline(always)]
fn place_from(runs: &[Run<Row>], near: usize, frame: u64) -> usize
    requires { IsNear (frame + 1) near runs.now }
    ensures { IsEndedAt (frame + 1) result runs.now }
{
    let mut place = near;
    while place < runs.len() {
        if !ends_by(&runs[place], frame) {
            return place;
        }
        place += 1;
    }
    place
}

/// The place in a list at a frame, given where to look.
#[inline(always)]
fn stand_at(runs: &[Run<Row>], place: usize, frame: u64) -> Stand
    requires low { frame ≤ 2 ^ 63 }
    requires reach { AreInReach HasPageBelow runs.now }
    requires place { IsEndedAt (frame + 1) place runs.now }
    ensures { IsStanding frame result runs.now }
{
    if place == runs.len() {
        return Stand {
            place,
            inside: false,
            until: u64::MAX,
        };
    }
    let pages = runs[place].pages;
    if frame < pages.first.0 {
        return Stand {
            place,
            inside: false,
            until: pages.first.0,
        };
    }
    Stand {
        place,
        inside: true,
        until: pages.first.0 + pages.count,
    }
}

/// The place in a list goes on to a frame: no run is looked at, and nothing written, before the next run begins or ends.
#[inline(always)]
fn go_to(runs: &[Run<Row>], stand: &mut Stand, frame: u64)
    requires low { frame ≤ 2 ^ 63 }
    requires reach { AreInReach HasPageBelow runs.now }
    requires stand { IsCarried frame stand.old runs.now }
    ensures { IsStanding frame stand.new runs.now }
{
    if stand.until <= frame {
        let place = place_from(runs, stand.place, frame);
        let here = stand_at(runs, place, frame);
        // Field by field: written as a whole, the bytes between them would be copied too.
        stand.place = here.place;
        stand.inside = here.inside;
        stand.until = here.until;
    }
}

/// The same; the frame before which the list goes on so, no later than another.
#[inline(always)]
fn look(runs: &[Run<Row>], stand: &mut Stand, low: u64, high: u64) -> u64
    requires low { low < 2 ^ 63 }
    requires order { low < high }
    requires coarsest { IsCoarsest advance_row runs.now }
    requires reach { AreInReach HasPageBelow runs.now }
    requires stand { IsCarried low stand.old runs.now }
    ensures standing { IsStanding low stand.new runs.now }
    ensures above { low < result }
    ensures below { result ≤ high }
    ensures goes_on { GoesOn runs.now low result }
{
    go_to(runs, stand, low);
    high.min(stand.until)
}

/// The row that a list has for a frame, by its place there.
#[inline(always)]
fn row_at(runs: &[Run<Row>], here: &Stand, frame: u64) -> Option<Row>
    requires coarsest { IsCoarsest advance_row runs.now }
    requires reach { AreInReach HasPageBelow runs.now }
    requires here { IsStanding frame here.now runs.now }
    ensures { result ≡ run_map advance_row runs.now frame }
{
    if here.inside {
        let run = runs[here.place];
        return Some(run.value.advanced(frame - run.pages.first.0));
    }
    None
}

impl Lists {
    ghost use Rattle.ghost_rows.specs.ListedRows.{
      told,
      AreReached,
      AreStanding,
      AreCarried,
      IsSteady,
    };

    /// Twice the runs of the annotations and of the loans: about the number of pieces if frames are in few uses, one
    /// for each run and one for the frames before it.
    pub(crate) fn count(&self) -> usize {
        let annotated = self.annotated.runs().len();
        let runs = annotated.saturating_add(self.lent.runs().len());
        runs.saturating_add(runs)
    }

    /// The row of a frame, by the places of the lists there.
    #[inline(always)]
    pub(crate) fn row(&self, here: &Stands, frame: u64) -> Row
        requires { AreStanding frame here.now self.now }
        ensures { result ≡ told self.now frame }
    {
        let annotated = row_at(self.annotated.runs(), &here.annotated, frame);
        let lent = row_at(self.lent.runs(), &here.lent, frame);
        let shared = row_at(self.shared.runs(), &here.shared, frame);
        let used = row_at(self.used.runs(), &here.used, frame);
        Row {
            owner: owner_of(annotated, lent, shared),
            lent: lent_of(lent),
            usage: usage_of(used),
        }
    }

    /// The lists go on to a frame; the frame before which all go on so, no later than another.
    #[inline(always)]
    pub(crate) fn look(&self, stands: &mut Stands, low: u64, high: u64) -> u64
        requires low { low < 2 ^ 63 }
        requires order { low < high }
        requires reach { AreReached self.now }
        requires stands { AreCarried low stands.old self.now }
        ensures standing { AreStanding low stands.new self.now }
        ensures above { low < result }
        ensures below { result ≤ high }
        ensures goes_on { (f : ℕ) → low ≤ f → f < result → told self.now f ≡ advance_row (told self.now low) (f - low) }
        ensures small { HasPageBelow (told self.now low) (result - low) }
    {
        let high = look(self.annotated.runs(), &mut stands.annotated, low, high);
        let high = look(self.lent.runs(), &mut stands.lent, low, high);
        let high = look(self.shared.runs(), &mut stands.shared, low, high);
        look(self.used.runs(), &mut stands.used, low, high)
    }

    /// The sharer and the use of frames, from one frame on. Their lists go on to it.
    pub(crate) fn steady(&self, stands: &mut Stands, frame: u64) -> Steady
        requires low { frame ≤ 2 ^ 63 }
        requires reach { AreReached self.now }
        requires stands { AreCarried frame stands.old self.now }
        ensures stands { AreCarried frame stands.new self.now }
        ensures above { frame < result.until }
        ensures steady { (f : ℕ) → frame ≤ f → f < result.until → IsSteady self.now result f }
    {
        let shared = self.shared.runs();
        let used = self.used.runs();
        go_to(shared, &mut stands.shared, frame);
        go_to(used, &mut stands.used, frame);
        Steady {
            until: stands.shared.until.min(stands.used.until),
            sharer: number_of(lent_of(row_at(shared, &stands.shared, frame))),
            usage: usage_of(row_at(used, &stands.used, frame)),
        }
    }

    /// The lists of annotations and loans go on to a frame.
    pub(crate) fn go_on(&self, stands: &mut Stands, frame: u64)
        requires low { frame ≤ 2 ^ 63 }
        requires reach { AreReached self.now }
        requires stands { AreCarried frame stands.old self.now }
        ensures stands { AreCarried frame stands.new self.now }
        ensures annotated { IsStanding frame stands.new.annotated self.now.annotated.runs }
        ensures lent { IsStanding frame stands.new.lent self.now.lent.runs }
    {
        go_to(self.annotated.runs(), &mut stands.annotated, frame);
        go_to(self.lent.runs(), &mut stands.lent, frame);
    }
}
