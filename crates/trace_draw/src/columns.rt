//! The columns of a picture: the coarsest runs of frames that are alike through all its rows.
ghost use Rattle.std.specs.Prelude.{◌≡◌, ◌+◌, ◌≤◌, ◌++◌, IfOk, OnOk};
ghost use Rattle.trace_draw.specs.Columns.{frames_drawn, frames_in, frames_of, frames_of_column};

use crate::bands::{Band, Look};
use crate::course::Scene;
use std::alloc::{AllocError, Global};

/// `count` frames from `first` on, which are alike in each row.
#[derive(Clone, Copy, PartialEq)]
pub(crate) struct Column {
    pub(crate) first: u64,
    pub(crate) count: u64,
    /// Their look in the first row.
    pub(crate) look: Look,
}

impl Column {
    /// The frame after the last.
    pub(crate) fn end(self) -> u64
        ensures { result ≤ self.first + self.count }
    {
        self.first.saturating_add(self.count)
    }
}

/// The columns of scenes, by frame: no frame is left out, twice, or out of its order.
pub(crate) fn columns_of(global: Global, scenes: &[Scene]) -> Result<Vec<Column>, AllocError>
    ensures { IfOk result (λ columns. frames_of columns.items ≡ frames_drawn scenes.now) }
{
    let Some((first, others)) = scenes.split_first() else {
        return Ok(Vec::new(global));
    };
    let mut columns = whole(global, first.bands.as_slice())?;
    for scene in others {
        columns = refined(global, columns.as_slice(), scene.bands.as_slice())?;
    }
    Ok(columns)
}

/// A column for each band.
fn whole(global: Global, bands: &[Band]) -> Result<Vec<Column>, AllocError>
    ensures { IfOk result (λ columns. frames_of columns.items ≡ frames_in bands.now) }
{
    let mut columns = Vec::with_capacity(global, bands.len())?;
    for band in bands {
        columns.push(Column {
            first: band.first,
            count: band.count,
            look: band.look,
        })?;
    }
    Ok(columns)
}

/// Columns cut at each place where a band begins or ends.
fn refined(global: Global, columns: &[Column], bands: &[Band]) -> Result<Vec<Column>, AllocError>
    ensures { IfOk result (λ cut. frames_of cut.items ≡ frames_of columns.now) }
{
    let mut cut = Vec::with_capacity(global, columns.len())?;
    let mut at = 0_usize;
    for column in columns {
        at = cut_column(&mut cut, *column, bands, at)?;
    }
    Ok(cut)
}

/// Appends a column's pieces, and returns the place of the first band that goes on after the column.
fn cut_column(
    cut: &mut Vec<Column>,
    column: Column,
    bands: &[Band],
    start: usize,
) -> Result<usize, AllocError>
    ensures { OnOk result (frames_of cut.new.items ≡ frames_of cut.old.items ++ frames_of_column column) }
{
    let mut left = column;
    for at in start..bands.len() {
        let end = bands[at].end();
        if end >= left.end() {
            cut.push(left)?;
            return Ok(at);
        }
        left = shortened(cut, left, end)?;
    }
    cut.push(left)?;
    Ok(bands.len())
}

/// Puts the piece of a column before a frame last, if it has one, and answers the rest.
#[tactic(auto, using(crate::proofs::Cuts::cut_off))]
fn shortened(cut: &mut Vec<Column>, left: Column, end: u64) -> Result<Column, AllocError>
    requires { end ≤ left.first + left.count }
    ensures { IfOk result
        (λ rest. frames_of cut.new.items ++ frames_of_column rest
        ≡ frames_of cut.old.items ++ frames_of_column left) }
{
    if end <= left.first {
        return Ok(left);
    }
    let count = end - left.first;
    cut.push(Column {
        first: left.first,
        count,
        look: left.look,
    })?;
    Ok(Column {
        first: end,
        count: left.count.saturating_sub(count),
        look: left.look,
    })
}
