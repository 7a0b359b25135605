//! How far long work is, on standard error.
ghost use Rattle.std.specs.Prelude.{◌≡◌};

use memory_image::{ImageBytes, Unread};
use std::cell::Cell;
use std::io::{self, Read};
use std::time::{Clock, Duration, Instant};
use trace_reader::Progress;

/// Shows on standard error, once a second, how many units of work are done, and wipes that at the end.
#[derive(Drop)]
pub struct Shown<'a, R: Clock + Eprint> {
    rt: &'a R,
    /// The name of the units counted.
    units: &'static str,
    /// When it was shown last. None if it isn't shown.
    last: Cell<Option<Instant>>,
    /// Whether something is shown.
    is_shown: Cell<bool>,
    count: Cell<u64>,
}

impl<'a, R: Clock + Eprint> Shown<'a, R> {
    /// `shows` says whether it shows anything.
    pub fn new(rt: &'a R, units: &'static str, shows: bool) -> Shown<'a, R> {
        let last = if shows { Instant::now(rt).ok() } else { None };
        Shown {
            rt,
            units,
            last: Cell::new(last),
            is_shown: Cell::new(false),
            count: Cell::new(0),
        }
    }
}

impl<'a, R: Clock + Eprint> Progress for Shown<'a, R> {
    /// Adds to the units done, and shows their number if a second has passed.
    fn advance(&self, by: u64) {
        let count = self.count.get().saturating_add(by);
        self.count.set(count);
        let Some(last) = self.last.get() else {
            return;
        };
        let Ok(now) = Instant::now(self.rt) else {
            return;
        };
        if now.duration_since(last) < Duration::from_secs(1) {
            return;
        }
        self.last.set(Some(now));
        self.is_shown.set(true);
        let units = self.units;
        let _ = eprint!(self.rt; "\r./run: {count} {units}");
    }

    fn finish(&self) {
        if self.is_shown.get() {
            self.is_shown.set(false);
            let _ = eprint!(self.rt; "\r\u{1b}[K");
        }
    }
}

/// A trace's reader that shows how many lines were read.
#[derive(Drop)]
pub struct Watched<F, P: Drop> {
    file: F,
    progress: P,
}

impl<F, P: Progress + Drop> Watched<F, P> {
    pub fn new(file: F, progress: P) -> Watched<F, P>
        ensures { result.file ≡ file }
    {
        Watched { file, progress }
    }
}

impl<F: Read, P: Progress + Drop> Read for Watched<F, P> {
    ghost remaining = { λ watched. F.remaining watched.file };

    fn read(&mut self, buf: &mut [u8]) -> io::Result<usize> {
        let count = self.file.read(buf)?;
        let lines = buf[..count].iter().filter(|byte| **byte == b'\n').count();
        self.progress.advance(lines as u64);
        if count == 0 {
            self.progress.finish();
        }
        Ok(count)
    }
}

/// An image of memory that shows how often a page, or a piece of the header, was read.
#[derive(Drop)]
pub struct WatchedImage<'a, I, P> {
    pub image: &'a I,
    pub progress: &'a P,
}

impl<'a, I: ImageBytes, P: Progress> ImageBytes for WatchedImage<'a, I, P> {
    ghost bytes = { λ watched. I.bytes watched.image.now };

    ghost may_fail = { λ watched. I.may_fail watched.image.now };

    fn count(&self) -> Result<u64, Unread> {
        self.image.count()
    }

    fn fill(&self, at: u64, into: &mut [u8]) -> Result<(), Unread> {
        self.image.fill(at, into)?;
        self.progress.advance(1);
        Ok(())
    }
}
