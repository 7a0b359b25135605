//! Progress of long work.

/// Receives the progress of long work, in units done. No answer depends on it.
pub trait Progress {
    /// So many units more are done.
    fn advance(&self, by: u64);

    /// The work is done.
    fn finish(&self);
}

/// Shows nothing.
#[derive(Clone, Copy)]
pub struct Silent;

impl Progress for Silent {
    fn advance(&self, _by: u64) {}

    fn finish(&self) {}
}
