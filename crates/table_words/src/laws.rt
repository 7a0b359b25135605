//! What holds of the model's own words.
ghost use Rattle.std.specs.Prelude.{◌≡◌, Some};
ghost use Rattle.descriptor.specs.declared.State.{State};
ghost use Rattle.descriptor.specs.Word.{desc_of};
ghost use Rattle.table_words.specs.Profiles.{model_profile};
ghost use Rattle.table_words.specs.Decoding.{decoded_of};
ghost use Rattle.table_words.specs.Entries.{beyond_of, entry_of, nothing_beyond};

use descriptor::Level;

/// What a word of the model's profile says is `descriptor`'s decode of it, and nothing beyond that.
pub fn own_words(level: Level, word: u64)
    ensures entry { (s : State) → entry_of (decoded_of model_profile level word) s ≡ Some (desc_of level word) }
    ensures beyond { beyond_of (decoded_of model_profile level word) ≡ nothing_beyond }
{}
