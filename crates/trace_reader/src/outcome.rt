//! How a run ends.
use thiserror::Error;

/// How a report ends.
#[derive(Clone, Copy, PartialEq)]
pub enum Outcome {
    /// No fault and no disagreement.
    Clean,
    /// No fault, and a disagreement.
    Disagreed,
    /// A fault line.
    Fault,
}

/// Why a report stops before its end. What was written until then is a beginning of the report.
#[derive(Clone, Copy, PartialEq, Debug, Error)]
pub enum EngineFault {
    /// (1)
    #[error("the trace could not be read")]
    Read,
    /// (2)
    #[error("the report could not be written")]
    Write,
    /// (3)
    #[error("out of memory")]
    NoMemory,
}
