//! Words by a profile.
ghost use Rattle.std.specs.Prelude.{◌≡◌, ℕ, ◌+◌, ◌^◌, ◌<◌, ◌↔◌, Option, Some, None};
ghost use Rattle.table_words.specs.Said.{DecodesTo};
ghost use Rattle.table_words.specs.Decoding.{leaf_in, table_in, byte_owner_in, donated_in, invalid_in, decoded_of};

use crate::parts::{
    access_in, aged_in, bits, execute_in, frame_in, guarded_in, is_beside_address, is_leaf_form,
    is_upper_level, memory_in, state_in,
};
use crate::profile::{InvalidForm, Profile};
use crate::word::{Decoded, Guest, Mapping};
use descriptor::{Frame, Level, Owner};

#[tactic(auto, unfolding(crate::specs::Decoding::leaf_in))]
fn leaf_of(profile: &Profile, level: Level, word: u64) -> Option<Mapping>
    ensures { result ≡ leaf_in profile.now level word }
{
    if !is_leaf_form(profile.lpa2, level, word) {
        return None;
    }
    let memory = memory_in(profile.memory, bits(word, 2, 4))?;
    let access = access_in(profile.access, bits(word, 6, 2))?;
    let execute = execute_in(profile.execute, bits(word, 53, 2))?;
    let state = state_in(profile.has_states, bits(word, 55, 2))?;
    let guarded = guarded_in(profile.guards, bits(word, 50, 1))?;
    let aged = aged_in(profile.ages, bits(word, 10, 1))?;
    let frame = Frame(frame_in(profile.lpa2, word));
    Some(Mapping {
        frame,
        access,
        execute,
        memory,
        state,
        guarded,
        aged,
    })
}

#[tactic(auto, unfolding(crate::specs::Decoding::table_in))]
fn table_of(lpa2: bool, level: Level, word: u64) -> Option<Frame>
    ensures { result ≡ table_in lpa2 level word }
{
    if is_upper_level(level)
        && bits(word, 0, 2) == 3
        && bits(word, 2, 6) == 0
        && is_beside_address(lpa2, 0, word)
        && bits(word, 10, 2) == 0
        && bits(word, 50, 14) == 0
    {
        Some(Frame(frame_in(lpa2, word)))
    } else {
        None
    }
}

fn byte_owner_of(word: u64) -> Decoded
    ensures { result ≡ byte_owner_in word }
{
    let owner = bits(word, 2, 8);
    if owner == 0 {
        Decoded::Malformed
    } else if bits(word, 0, 2) == 0 && bits(word, 10, 54) == 0 {
        Decoded::Annotated {
            owner: Owner(owner),
            guest: None,
        }
    } else {
        Decoded::Malformed
    }
}

fn donated_of(word: u64) -> Decoded
    ensures { result ≡ donated_in word }
{
    if bits(word, 60, 4) == 2 {
        if bits(word, 0, 4) == 2 && bits(word, 4, 56) == 0 {
            Decoded::Annotated {
                owner: Owner(1),
                guest: None,
            }
        } else if bits(word, 0, 4) == 4 {
            let guest = Guest {
                handle: bits(word, 4, 16),
                gfn: bits(word, 20, 40),
            };
            Decoded::Annotated {
                owner: Owner(2),
                guest: Some(guest),
            }
        } else {
            Decoded::Malformed
        }
    } else {
        Decoded::Malformed
    }
}

#[tactic(auto, unfolding(crate::specs::Decoding::invalid_in))]
fn invalid_of(profile: &Profile, level: Level, word: u64) -> Decoded
    requires { word + 1 < 2 ^ 64 }
    ensures { result ≡ invalid_in profile.now profile.now.invalid level word }
{
    match profile.invalid {
        InvalidForm::OwnerByte => byte_owner_of(word),
        InvalidForm::OwnerOrLock => {
            if word == 1 << 10 {
                Decoded::Locked
            } else {
                byte_owner_of(word)
            }
        }
        InvalidForm::Lock => {
            if word == 1 << 10 {
                Decoded::Locked
            } else {
                Decoded::Malformed
            }
        }
        InvalidForm::Donation => {
            if word == 1 << 60 {
                Decoded::Locked
            } else {
                donated_of(word)
            }
        }
        InvalidForm::Poison => {
            if word == 1 << 60 {
                Decoded::Locked
            } else if word == 3 << 60 {
                Decoded::Poisoned
            } else {
                Decoded::Malformed
            }
        }
        InvalidForm::ClearedLeaf => match leaf_of(profile, level, word + 1) {
            Some(mapping) => Decoded::Cleared(mapping),
            None => Decoded::Malformed,
        },
    }
}

/// What a word of a level says by a profile. Each word says one thing, or is Malformed.
#[tactic(auto, unfolding(crate::specs::Decoding::decoded_of))]
pub fn decode(profile: &Profile, level: Level, word: u64) -> Decoded
    ensures exact { (d : _) → (result ≡ d) ↔ DecodesTo profile.now level word d }
    ensures value { result ≡ decoded_of profile.now level word }
{
    if word == 0 {
        return Decoded::Unmapped;
    }
    if bits(word, 0, 1) == 0 {
        return invalid_of(profile, level, word);
    }
    if let Some(frame) = table_of(profile.lpa2, level, word) {
        return Decoded::Table(frame);
    }
    if let Some(mapping) = leaf_of(profile, level, word) {
        return Decoded::Leaf(mapping);
    }
    Decoded::Malformed
}
