//! What holds of the model's own words.
ghost use Rattle.std.specs.Prelude.{◌≡◌};
ghost use Rattle.descriptor.specs.declared.State.{State};
ghost use Rattle.descriptor.specs.Word.{desc_of};
ghost use Rattle.table_words.specs.Decoding.{decoded_of};
ghost use Rattle.table_words.specs.Profiles.{model_profile};
ghost use Rattle.c_profiles.specs.Words.{desc_by};

use descriptor::Level;

/// By the model's profile a word says what `descriptor` says of it.
pub fn own_words(level: Level, word: u64)
    ensures { (s : State)
        → desc_by model_profile s (decoded_of model_profile level word) ≡ desc_of level word }
{}
