//! The places of the parts of a picture, in pixels.
ghost use Rattle.std.specs.Prelude.{◌≡◌, ◌+◌, ◌<◌, IfOk, IfSome, length, slice_get};
ghost use Rattle.trace_draw.specs.Pictures.{AreEdges};

use crate::columns::Column;
use std::alloc::{AllocError, Global};

/// The left edge of the texts of steps.
pub(crate) const MARGIN: u64 = 12;

/// The room of the texts of steps.
const TEXTS: u64 = 450;

/// The height of a row with its text.
const ROW: u64 = 13;

/// The most pixels that all rows have; more rows get thin, and have no text.
const MOST_HEIGHT: u64 = 5_200;

/// The top of the first row.
pub(crate) const TOP: u64 = 150;

/// The width of a slot's cells with their text, and without.
const SLOT: u64 = 112;

const THIN_SLOT: u64 = 18;

/// The most slots whose cells have their text.
const MOST_WIDE: usize = 10;

/// The places of rows, columns and slots.
#[derive(Drop)]
pub(crate) struct Places {
    pub(crate) rows: u64,
    /// The left edge of the memory.
    pub(crate) left: u64,
    /// The left edge of each column, and the right one of the last.
    pub(crate) edges: Vec<u64>,
    /// The left edge of the slots.
    pub(crate) slots: u64,
    pub(crate) slot_width: u64,
    pub(crate) has_texts: bool,
    pub(crate) has_slot_texts: bool,
}

impl Places {
    /// The places in a picture of this number of rows and slots, and of these columns.
    pub(crate) fn of(
        global: Global,
        rows: u64,
        columns: &[Column],
        slots: usize,
    ) -> Result<Places, AllocError>
        ensures { IfOk result (λ places. AreEdges (length columns.now) places.edges.items) }
    {
        let has_texts = rows <= MOST_HEIGHT / ROW;
        let has_slot_texts = slots <= MOST_WIDE;
        let left = if has_texts { MARGIN + TEXTS } else { MARGIN };
        let edges = edges_of(global, left, columns)?;
        let right = match edges.last() {
            Some(edge) => *edge,
            None => left,
        };
        Ok(Places {
            rows,
            left,
            edges,
            slots: right.saturating_add(24),
            slot_width: if has_slot_texts { SLOT } else { THIN_SLOT },
            has_texts,
            has_slot_texts,
        })
    }

    /// The top of a row, and the bottom of the last.
    pub(crate) fn row(&self, row: u64) -> u64 {
        let at = row.min(self.rows);
        if self.has_texts {
            TOP.saturating_add(at.saturating_mul(ROW))
        } else {
            TOP.saturating_add(scaled(at, self.rows))
        }
    }

    /// The line of a row's text.
    pub(crate) fn line(&self, row: u64) -> u64 {
        self.row(row).saturating_add(10)
    }

    /// The left edge of a column.
    pub(crate) fn column(&self, column: usize) -> u64
        ensures { IfSome (slice_get self.now.edges.items column) (λ edge. result ≡ edge) }
    {
        match self.edges.get(column) {
            Some(edge) => *edge,
            None => self.slots,
        }
    }

    /// The left edge of a slot.
    pub(crate) fn slot(&self, place: u64) -> u64 {
        self.slots
            .saturating_add(place.saturating_mul(self.slot_width))
    }
}

/// How far down a row begins if all rows together have no more than the most pixels.
fn scaled(row: u64, rows: u64) -> u64 {
    if rows == 0 {
        return 0;
    }
    row.saturating_mul(MOST_HEIGHT) / rows
}

/// The left edges of columns from a place on, and the right one of the last.
fn edges_of(global: Global, left: u64, columns: &[Column]) -> Result<Vec<u64>, AllocError>
    ensures { IfOk result (λ edges. AreEdges (length columns.now) edges.items) }
{
    let mut edges = Vec::with_capacity(global, columns.len())?;
    let narrow = columns.len() > 80;
    let mut at = left;
    for column in columns {
        edges.push(at)?;
        at = at.saturating_add(width_of(*column, narrow));
    }
    edges.push(at)?;
    Ok(edges)
}

/// The width of a column: more pages are wider, by the number of their digits.
fn width_of(column: Column, narrow: bool) -> u64
    ensures { 0 < result }
{
    let digits = u64::from(64 - column.count.leading_zeros());
    if narrow {
        digits.saturating_add(4)
    } else {
        digits.saturating_mul(3).saturating_add(8)
    }
}
