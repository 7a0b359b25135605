//! The owner table: the row of each memory frame, kept as the coarsest list of runs.
#![tactic(auto)]

ghost use Rattle.std.specs.Prelude.{◌≡◌, ◌+◌, ◌^◌, ◌≤◌, None, Some, IsSome, IfOk, All, length, if◌then◌else◌};
ghost use Rattle.page_state.specs.Regions.{end_of, is_memory_kind, memory_pages};
ghost use Rattle.page_state.specs.Rows.{advance_row, plain_row};
ghost use Rattle.page_state.specs.Rows.{HasPageBelow};
ghost use Rattle.run_list.specs.Runs.{run_map, AreInReach, IsCoarsest};
ghost use Rattle.owner_table.specs.Rows.{row_at, IsOf, HasRows, HasSameFrames, rows_set};
ghost use Rattle.owner_table.specs.Room.{HasRoom, frame_limit};
ghost use Rattle.owner_table.specs.Filling.{filled, filled_all};

use page_state::{Frame, MemoryMap, Owner, Page, PageRange, Region, RegionKind, Row, Usage};
pub use run_list::Run;
use run_list::RunList;
use std::alloc::{AllocError, Global};
use std::marker::Model;

/// A row for each memory frame, and none for any other. Memory for the most rows that can ever be needed is allocated
/// once.
#[derive(Drop)]
pub struct OwnerTable {
    rows: RunList<Row>,
}

impl Model for OwnerTable {
    ghost use Rattle.std.specs.Prelude.{List};
    ghost use Rattle.page_state.specs.declared.row.Row.{Row as FrameRow};
    ghost use Rattle.run_list.specs.declared.run.Run.{Run as RowRun};

    ghost Value = { List (RowRun FrameRow) };

    ghost use Rattle.owner_table.specs.Room.{HasRoom, frame_limit};

    ghost view = { λ m. m.rows.runs };

    ghost invariant = { λ m. HasRoom m.rows.runs m.rows.room frame_limit };
}

impl OwnerTable {
    /// The rows at boot: the host owns each memory frame, shares it with nobody, and has it in no other use. There is
    /// room for every later change. It fails only if the allocator refuses memory.
    pub fn of(alloc: Global, map: &MemoryMap) -> Result<OwnerTable, AllocError>
        ensures frames { IfOk result (λ rows. IsOf map.now rows) }
        ensures coarsest { IfOk result (λ rows. IsCoarsest advance_row rows) }
    {
        let rows = rows_of(alloc, map.regions())?;
        Ok(OwnerTable { rows })
    }

    /// The row of a memory frame.
    pub fn row(&self, frame: Frame) -> Row
        requires { IsSome (row_at self.now frame.0) }
        ensures { row_at self.now frame.0 ≡ Some result }
    {
        self.rows.at(Page(frame.0)).unwrap()
    }

    /// Gives memory frames another row, whose lent page goes on along the range. It can't fail, and takes no memory.
    pub fn set(&mut self, frames: PageRange, row: Row)
        requires frames { end_of frames ≤ 2 ^ 63 }
        requires row { HasPageBelow row frames.count }
        requires known { HasRows self.old frames }
        ensures map { row_at self.new ≡ rows_set (row_at self.old) frames row }
        ensures same { HasSameFrames self.old self.new }
        ensures coarsest { IsCoarsest advance_row self.new }
    {
        self.rows.set(frames, Some(row));
    }

    /// The coarsest list of runs, by frame.
    pub fn runs(&self) -> &[Run<Row>]
        ensures runs { result.now ≡ self.now }
        ensures coarsest { IsCoarsest advance_row self.now }
        ensures reach { AreInReach HasPageBelow self.now }
    {
        self.rows.runs()
    }
}

/// The plain row of each memory frame, with room for every change.
fn rows_of(alloc: Global, regions: &[Region]) -> Result<RunList<Row>, AllocError>
    requires limit { All (λ r. end_of r.pages ≤ 2 ^ 26) regions.now }
    requires few { memory_pages regions.now ≤ 524288 }
    ensures map { IfOk result (λ rows. run_map advance_row rows.runs ≡ filled_all regions.now (λ _. None)) }
    ensures room { IfOk result (λ rows. HasRoom rows.runs rows.room frame_limit) }
{
    let mut rows = RunList::new(alloc);
    rows.reserve(memory_frames(regions) as usize + 2)?;
    for region in regions {
        fill(&mut rows, *region);
    }
    Ok(rows)
}

/// Gives the frames of a region the plain row, if it is a region of memory.
fn fill(rows: &mut RunList<Row>, region: Region)
    requires pages { end_of region.pages ≤ 2 ^ 63 }
    requires room { 2 ≤ rows.old.room }
    requires coarsest { IsCoarsest advance_row rows.old.runs }
    ensures map { run_map advance_row rows.new.runs ≡ filled region (run_map advance_row rows.old.runs) }
    ensures coarsest { IsCoarsest advance_row rows.new.runs }
    ensures room { rows.new.room + length rows.new.runs ≡ rows.old.room + length rows.old.runs }
{
    match region.kind {
        RegionKind::Memory => rows.set(region.pages, Some(plain())),
        RegionKind::Device => {}
    }
}

/// The row of a frame that the host owns, shares with nobody, and has in no other use.
fn plain() -> Row
    ensures { result ≡ plain_row }
{
    Row {
        owner: Owner(0),
        lent: None,
        usage: Usage::Plain,
    }
}

/// How many frames are memory.
fn memory_frames(regions: &[Region]) -> u64
    requires { memory_pages regions.now ≤ 524288 }
    ensures { result ≡ memory_pages regions.now }
{
    let mut count = 0;
    for region in regions {
        count += frames_of(*region);
    }
    count
}

/// How many memory frames a region has.
fn frames_of(region: Region) -> u64
    ensures { result ≡ (if is_memory_kind region.kind then region.pages.count else 0) }
{
    match region.kind {
        RegionKind::Memory => region.pages.count,
        RegionKind::Device => 0,
    }
}
