//! Laws of legal states and of sound states.
ghost use Rattle.ghost_sound.specs.Laws.{LegalIsSound, SoundElse};

/// A legal state, as each state of a run is, has no finding.
pub fn legal_is_sound()
    ensures { LegalIsSound }
{}

/// A sound state has no finding.
pub fn sound_else()
    ensures { SoundElse }
{}
