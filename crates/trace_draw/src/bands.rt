//! Frames that are drawn alike.
use page_state::{Row, Usage};
use run_list::Run;
use std::alloc::{AllocError, Global};

/// How a frame is drawn: who owns it, to whom it is lent, and what holds it. Numbers are those of owner rows.
#[derive(Clone, Copy, PartialEq)]
pub(crate) struct Look {
    pub(crate) owner: u64,
    pub(crate) borrower: Option<u64>,
    pub(crate) usage: Usage,
}

/// `count` frames from `first` on that are drawn alike.
#[derive(Clone, Copy, PartialEq)]
pub(crate) struct Band {
    pub(crate) first: u64,
    pub(crate) count: u64,
    pub(crate) look: Look,
}

impl Band {
    /// The frame after the last.
    pub(crate) fn end(self) -> u64 {
        self.first.saturating_add(self.count)
    }
}

fn look_of(row: Row) -> Look {
    Look {
        owner: row.owner.0,
        borrower: row.lent.map(|lent| lent.owner.0),
        usage: row.usage,
    }
}

/// The bands of owner rows: neighbours that are drawn alike are one.
pub(crate) fn bands_of(global: Global, runs: &[Run<Row>]) -> Result<Vec<Band>, AllocError> {
    let mut bands = Vec::new(global);
    for run in runs {
        add(&mut bands, *run)?;
    }
    Ok(bands)
}

fn add(bands: &mut Vec<Band>, run: Run<Row>) -> Result<(), AllocError> {
    let band = Band {
        first: run.pages.first.0,
        count: run.pages.count,
        look: look_of(run.value),
    };
    if let Some(last) = bands.last_mut() {
        if last.look == band.look && last.end() == band.first {
            last.count = last.count.saturating_add(band.count);
            return Ok(());
        }
    }
    bands.push(band)?;
    Ok(())
}
