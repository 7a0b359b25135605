//! Words of tables.
ghost use Rattle.pkvm_oracle.specs.Words.{IsDecoded, IsDecodedAs, IsEncoded};

use crate::statuses::{BAD_NUMBER, NO_LEVEL, NO_WORD};
use c_profiles::{PlainBeyond, beyond_to_c, desc_as, profile_of};
use c_words::{PlainWord, desc_of, desc_to_c, level_of};
use descriptor::{State, decode, encode};
use table_words::decode as decode_by;

/// Decodes a word of a table of a level into `out`. 0, or -1 if there is no such level, and then `out` stays.
#[unsafe(no_mangle)]
pub extern "C" fn pkvm_decode(level: u64, word: u64, out: &mut PlainWord) -> i32
    ensures { IsDecoded level word out.old out.new result }
{
    let Some(level) = level_of(level) else {
        return NO_LEVEL;
    };
    *out = desc_to_c(decode(level, word));
    0
}

/// Decodes a word of a table of a level by the profile of a tree: into `out` what it says to the model, into `beyond` what it says
/// beyond that. 0; or -1 if there is no such level, -3 if the tree has no such profile; and then both stay.
#[unsafe(no_mangle)]
pub extern "C" fn pkvm_decode_as(
    tree: u64,
    profile: u64,
    level: u64,
    word: u64,
    out: &mut PlainWord,
    beyond: &mut PlainBeyond,
) -> i32
    ensures { IsDecodedAs tree profile level word out.old out.new beyond.old beyond.new result }
{
    let Some(level) = level_of(level) else {
        return NO_LEVEL;
    };
    let Some(profile) = profile_of(tree, profile) else {
        return BAD_NUMBER;
    };
    let decoded = decode_by(&profile, level, word);
    *out = desc_to_c(desc_as(&profile, State::Owned, &decoded));
    *beyond = beyond_to_c(&decoded);
    0
}

/// The one word that says this in a table of a level. 0; or -1 if there is no such level, -3 if a number of it is
/// invalid, -4 if no word says it there; and then `out` stays.
#[unsafe(no_mangle)]
pub extern "C" fn pkvm_encode(level: u64, says: &PlainWord, out: &mut u64) -> i32
    ensures { IsEncoded level says.now out.old out.new result }
{
    let Some(level) = level_of(level) else {
        return NO_LEVEL;
    };
    let Some(desc) = desc_of(*says) else {
        return BAD_NUMBER;
    };
    match encode(level, &desc) {
        Some(word) => {
            *out = word;
            0
        }
        None => NO_WORD,
    }
}
