//! Why a race stops before the end of its report.
ghost use Rattle.std.specs.Prelude.{◌≡◌};
ghost use Rattle.trace_race.specs.declared.fault.RaceFault.TheVariants.{Engine};
ghost use Rattle.trace_reader.specs.declared.outcome.EngineFault.TheVariants.{NoMemory};

use std::alloc::AllocError;
use trace_reader::EngineFault;

/// Why a race stops before the end of its report. In brackets the number of the fault.
#[derive(Clone, Copy, PartialEq, Debug)]
pub enum RaceFault {
    /// (1), (2) and (3): as in a replay.
    Engine(EngineFault),
    /// (4) A thread couldn't be started.
    Start,
}

impl From<EngineFault> for RaceFault {
    ghost from_gives = { λ fault result. result ≡ Engine fault };

    fn from(fault: EngineFault) -> RaceFault {
        RaceFault::Engine(fault)
    }
}

impl From<AllocError> for RaceFault {
    ghost from_gives = { λ _ result. result ≡ Engine NoMemory };

    fn from(_error: AllocError) -> RaceFault {
        RaceFault::Engine(EngineFault::NoMemory)
    }
}
