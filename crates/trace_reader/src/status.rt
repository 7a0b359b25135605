//! The exit status of a run.
ghost use Rattle.std.specs.Prelude.{◌≡◌, ◌≢◌};

use crate::{EngineFault, Outcome};

/// The exit status of a run: 0 for Clean and 1 for all else.
pub fn exit_status(answer: Result<Outcome, EngineFault>) -> u8
    ensures clean { answer ≡ Ok Outcome.Clean → result ≡ 0 }
    ensures other { answer ≢ Ok Outcome.Clean → result ≡ 1 }
{
    match answer {
        Ok(Outcome::Clean) => 0,
        _ => 1,
    }
}
