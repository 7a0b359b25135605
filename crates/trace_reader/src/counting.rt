//! A reader or a writer of std that counts its failures.
ghost use Rattle.std.specs.Prelude.{◌≡◌};
ghost use Rattle.trace_reader.specs.Devices.{one_more};

use crate::source::Failed;
use std::io::Error;

/// A reader of std as a source, or a writer of std as a sink. It keeps why it failed last.
#[derive(Drop)]
pub struct Counting<D> {
    pub device: D,
    /// How many of its reads or writes have failed. The greatest u64 stays.
    pub failed: u64,
    pub cause: Option<Error>,
}

impl<D> Counting<D> {
    /// A device that hasn't failed.
    pub fn new(device: D) -> Counting<D>
        ensures device { result.device ≡ device }
        ensures failures { result.failed ≡ 0 }
    {
        Counting {
            device,
            failed: 0,
            cause: None,
        }
    }

    /// Counts a failure, and keeps why.
    pub fn fail(&mut self, error: Error) -> Failed
        ensures device { self.new.device ≡ self.old.device }
        ensures counted { self.new.failed ≡ one_more self.old.failed }
    {
        self.failed = self.failed.saturating_add(1);
        self.cause = Some(error);
        Failed
    }

    /// The device, and why the last read or write failed that did.
    pub fn into_parts(self) -> (D, Option<Error>)
        ensures device { result.0 ≡ self.device }
        ensures cause { result.1 ≡ self.cause }
    {
        let Counting {
            device,
            failed: _,
            cause,
        } = self;
        (device, cause)
    }
}
