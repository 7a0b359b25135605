//! The cells of a picture: a column through neighbouring rows in which it looks the same.
ghost use Rattle.std.specs.Prelude.{◌≡◌, IfOk, length};

use crate::bands::{Band, Look};
use crate::columns::Column;
use crate::course::{Moment, Scene, SlotLook};
use std::alloc::{AllocError, Global};

/// A column from a row on up to before another.
#[derive(Clone, Copy)]
pub(crate) struct Cell {
    pub(crate) column: usize,
    pub(crate) from: usize,
    pub(crate) to: usize,
    pub(crate) look: Look,
}

/// The look of a column from a row on.
#[derive(Clone, Copy)]
pub(crate) struct Since {
    pub(crate) from: usize,
    pub(crate) look: Look,
}

/// The cells of a picture.
#[derive(Drop)]
pub(crate) struct Cells {
    /// The cells that end before a row.
    pub(crate) ended: Vec<Cell>,
    /// What each column looks like at the end of the picture.
    pub(crate) last: Vec<Since>,
}

/// The cells of a picture with these rows and columns.
pub(crate) fn cells_of(
    global: Global,
    moments: &[Moment],
    scenes: &[Scene],
    columns: &[Column],
) -> Result<Cells, AllocError>
    ensures { IfOk result (λ cells. length cells.last.items ≡ length columns.now) }
{
    let mut ended = Vec::new(global);
    let mut last = first_looks(global, columns)?;
    for (row, moment) in moments.iter().enumerate() {
        if let Some(scene) = scenes.get(moment.scene) {
            let bands = scene.bands.as_slice();
            go_on(&mut ended, last.as_mut_slice(), columns, bands, row)?;
        }
    }
    Ok(Cells { ended, last })
}

/// What each column looks like in the first row.
fn first_looks(global: Global, columns: &[Column]) -> Result<Vec<Since>, AllocError>
    ensures { IfOk result (λ looks. length looks.items ≡ length columns.now) }
{
    let mut looks = Vec::with_capacity(global, columns.len())?;
    for column in columns {
        looks.push(Since {
            from: 0,
            look: column.look,
        })?;
    }
    Ok(looks)
}

/// Ends the cells that end before a row, and begins those that begin with it.
fn go_on(
    ended: &mut Vec<Cell>,
    last: &mut [Since],
    columns: &[Column],
    bands: &[Band],
    row: usize,
) -> Result<(), AllocError> {
    let mut at = 0_usize;
    for (number, column) in columns.iter().enumerate() {
        at = behind(bands, at, column.first);
        if let (Some(band), Some(since)) = (bands.get(at), last.get_mut(number)) {
            if since.look != band.look {
                ended.push(Cell {
                    column: number,
                    from: since.from,
                    to: row,
                    look: since.look,
                })?;
                *since = Since {
                    from: row,
                    look: band.look,
                };
            }
        }
    }
    Ok(())
}

/// The place, from `start` on, of the first band that ends after a frame.
fn behind(bands: &[Band], start: usize, frame: u64) -> usize {
    for at in start..bands.len() {
        if bands[at].end() > frame {
            return at;
        }
    }
    bands.len()
}

/// A VM slot through neighbouring rows in which it is the same.
#[derive(Clone, Copy)]
pub(crate) struct SlotCell {
    pub(crate) from: usize,
    pub(crate) to: usize,
    pub(crate) look: SlotLook,
}

/// The slots that are used in some scene, by number.
pub(crate) fn used_slots(global: Global, scenes: &[Scene]) -> Result<Vec<u64>, AllocError> {
    let mut used = Vec::new(global);
    for slot in 0..64_u64 {
        if is_used(scenes, slot) {
            used.push(slot)?;
        }
    }
    Ok(used)
}

fn is_used(scenes: &[Scene], slot: u64) -> bool {
    scenes.iter().any(|scene| slot_in(scene, slot).is_some())
}

fn slot_in(scene: &Scene, slot: u64) -> Option<SlotLook> {
    scene.slots.iter().copied().find(|look| look.slot == slot)
}

/// The cells of a slot.
pub(crate) fn slot_cells(
    global: Global,
    moments: &[Moment],
    scenes: &[Scene],
    slot: u64,
) -> Result<Vec<SlotCell>, AllocError> {
    let mut cells = Vec::new(global);
    let mut from = 0_usize;
    let mut last = None;
    for (row, moment) in moments.iter().enumerate() {
        let look = match scenes.get(moment.scene) {
            Some(scene) => slot_in(scene, slot),
            None => None,
        };
        if look != last {
            close_slot(&mut cells, from, row, last)?;
            from = row;
            last = look;
        }
    }
    close_slot(&mut cells, from, moments.len(), last)?;
    Ok(cells)
}

fn close_slot(
    cells: &mut Vec<SlotCell>,
    from: usize,
    to: usize,
    look: Option<SlotLook>,
) -> Result<(), AllocError> {
    if let Some(look) = look {
        cells.push(SlotCell { from, to, look })?;
    }
    Ok(())
}
