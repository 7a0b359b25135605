//! Opens the files of traces.
ghost use Rattle.std.specs.Prelude.{⊤};

use crate::progress::{Shown, Watched};
use either::Either;
use std::fs;
use std::io::{self, Input};
use std::rt::Files;
use std::time::Clock;

/// Opens the files of traces by their paths.
pub trait Opens<F> {
    ghost use Rattle.std.specs.Prelude.{ℕ, List, Result};
    ghost use Rattle.std.specs.declared.io.Error.{Error};

    /// The possible results of opening a path.
    ghost opens: { Self → List ℕ → Result F Error → Type 0 };

    /// Opens the file at a path. `is_long` says that the run of its trace may take a while.
    fn open(&self, path: &str, is_long: bool) -> Result<F, io::Error>
        ensures { opens self.now path.now result };
}

/// Opens images of memory by their paths.
pub trait OpensImage<I> {
    ghost use Rattle.std.specs.Prelude.{ℕ, List, Result};
    ghost use Rattle.std.specs.declared.io.Error.{Error};

    /// The possible results of opening a path.
    ghost opens_image: { Self → List ℕ → Result I Error → Type 0 };

    /// Opens the image at a path.
    fn open_image(&self, path: &str) -> Result<I, io::Error>
        ensures { opens_image self.now path.now result };
}

/// Shows the progress of long work.
pub trait ShowsWork<P> {
    /// Counts work in these `units` from here on. `is_shown` says whether the user asked for progress.
    fn progress(&self, units: &'static str, is_shown: bool) -> P;
}

/// The machine's own files, and standard input under the path `-`.
#[derive(Drop)]
pub struct HostFiles<'a, R> {
    pub rt: &'a R,
    /// Whether the progress of long work is shown.
    pub shows: bool,
}

impl<'a, R: Files + Input + Clock + Eprint> Opens<Watched<Either<R::Reader, R::File>, Shown<'a, R>>>
    for HostFiles<'a, R> {
    ghost opens = { λ files path file. ⊤ };

    fn open(
        &self,
        path: &str,
        is_long: bool,
    ) -> Result<Watched<Either<R::Reader, R::File>, Shown<'a, R>>, io::Error> {
        let progress = self.progress("lines read", is_long);
        if path == "-" {
            let input = Either::Left(self.rt.reader());
            return Ok(Watched::new(input, progress));
        }
        match fs::open(self.rt, path) {
            Ok(file) => Ok(Watched::new(Either::Right(file), progress)),
            Err(error) => Err(error),
        }
    }
}

impl<'a, R: Files> OpensImage<R::File> for HostFiles<'a, R> {
    ghost opens_image = { λ files path file. ⊤ };

    fn open_image(&self, path: &str) -> Result<R::File, io::Error> {
        fs::open(self.rt, path)
    }
}

impl<'a, R: Clock + Eprint> ShowsWork<Shown<'a, R>> for HostFiles<'a, R> {
    fn progress(&self, units: &'static str, is_shown: bool) -> Shown<'a, R> {
        Shown::new(self.rt, units, self.shows && is_shown)
    }
}
