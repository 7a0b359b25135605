//! What holds of every state.
ghost use Rattle.ghost_legal.specs.Laws.{FramesAreLegal, GuestsAreHeld, HasCounts, LegalFrames, NoFalseAlarm, WholeGuestsFit};

/// The frames of a state are legal if each is in exactly one condition.
pub fn frames_are_legal()
    ensures { FramesAreLegal }
{}

/// If the frames of a state are legal, each is in exactly one condition.
pub fn legal_frames()
    ensures { LegalFrames }
{}

/// A permutation of all that is held has each frame as often as the parts hold it.
pub fn counts()
    ensures { HasCounts }
{}

/// The pieces of a guest are its leaves.
pub fn guests_are_held()
    ensures { GuestsAreHeld }
{}

/// If each guest is whole, all guests fit.
pub fn whole_guests_fit()
    ensures { WholeGuestsFit }
{}

/// The fault of a state isn't there in a legal one.
pub fn no_false_alarm()
    ensures { NoFalseAlarm }
{}
