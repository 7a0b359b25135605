//! The tables that a walk has reached.
ghost use Rattle.std.specs.Prelude.{◌≡◌, ◌++◌, ◌∷◌, [], ◌==◌, All, AllPairs, IfErr, OnOk, find};
ghost use Rattle.walked_tables.specs.Reached.{AreOtherFrames, IsStopped, IsOfFrame, reached_of};

use std::alloc::AllocError;

/// A table: the number that its tree goes by, how many levels are below it, its block's number among those of its level, and its
/// frame.
#[derive(Clone, Copy, PartialEq)]
pub struct Reached {
    pub tree: u64,
    pub depth: u64,
    pub number: u64,
    pub frame: u64,
}

/// Why a walk ends early.
#[derive(Clone, Copy, PartialEq)]
pub enum Stopped {
    /// The walk comes again to the frame of a table: where it was then, and where it is now.
    Again { first: Reached, second: Reached },
    /// Memory was refused.
    NoMemory,
}

impl From<AllocError> for Stopped {
    ghost use Rattle.walked_tables.specs.declared.reached.Stopped.TheVariants.{NoMemory};

    ghost from_gives = { λ _ stopped. stopped ≡ NoMemory };

    fn from(_error: AllocError) -> Stopped {
        Stopped::NoMemory
    }
}

/// The first table that has a frame.
fn of_frame(met: &[Reached], frame: u64) -> Option<Reached>
    ensures { result ≡ reached_of met.now frame }
{
    met.iter().copied().find(|reached| reached.frame == frame)
}

/// Adds a table that a walk comes to, unless it has been to the table's frame.
pub(crate) fn reach(met: &mut Vec<Reached>, next: Reached) -> Result<(), Stopped>
    requires apart { AllPairs AreOtherFrames met.old.items }
    ensures met { OnOk result (met.new.items ≡ met.old.items ++ next ∷ []) }
    ensures fresh { OnOk result (All (λ r. IsOfFrame next.frame r → ⊥) met.old.items) }
    ensures stopped { IfErr result (IsStopped (met.old.items ++ next ∷ [])) }
{
    if let Some(first) = of_frame(met.as_slice(), next.frame) {
        return Err(Stopped::Again {
            first,
            second: next,
        });
    }
    add(met, next)?;
    Ok(())
}

/// Adds a table.
fn add(met: &mut Vec<Reached>, next: Reached) -> Result<(), AllocError>
    ensures { OnOk result (met.new.items ≡ met.old.items ++ next ∷ []) }
{
    met.push(next)?;
    Ok(())
}
