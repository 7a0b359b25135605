//! The parts of a leaf, read from their bits.
ghost use Rattle.std.specs.Prelude.{◌≡◌, ℕ, ◌+◌, ◌*◌, ◌%◌, ◌^◌, ◌<◌, ◌==◌, IsTrue};
ghost use Rattle.descriptor.specs.Word.{field, page_bit, has_leaves, is_upper, level_pages};
ghost use Rattle.table_words.specs.Said.{memory_of, access_of, execute_of, state_of, aged_of, guarded_of, frame_of};
ghost use Rattle.table_words.specs.Decoding.{has_beside_address, has_leaf_form};

use crate::profile::{AccessForm, ExecuteForm, MemoryForm};
use crate::word::{Access, Execute, Memory};
use descriptor::{Level, State, block_pages_of};

/// The `count` bits of `word` from bit `low` on.
pub fn bits(word: u64, low: u32, count: u32) -> u64
    requires low_in { low < 64 }
    requires count_in { count < 64 }
    ensures { result ≡ field word low count }
{
    (word >> low) & ((1 << count) - 1)
}

pub fn memory_in(form: MemoryForm, code: u64) -> Option<Memory>
    ensures { result ≡ memory_of form code }
{
    match form {
        MemoryForm::TwoKinds => match code {
            15 => Some(Memory::WriteBack),
            1 => Some(Memory::Registers),
            _ => None,
        },
        MemoryForm::Index => match code {
            0 => Some(Memory::WriteBack),
            4 => Some(Memory::Registers),
            _ => None,
        },
        MemoryForm::Combined => match code {
            15 => Some(Memory::WriteBack),
            5 => Some(Memory::Uncached),
            1 => Some(Memory::Registers),
            _ => None,
        },
        MemoryForm::Forced => match code {
            6 => Some(Memory::WriteBack),
            5 => Some(Memory::Uncached),
            1 => Some(Memory::Registers),
            _ => None,
        },
        MemoryForm::Passed => match code {
            15 => Some(Memory::FromStage1),
            _ => None,
        },
        MemoryForm::PassedForced => match code {
            7 => Some(Memory::FromStage1),
            _ => None,
        },
    }
}

pub fn access_in(form: AccessForm, code: u64) -> Option<Access>
    ensures { result ≡ access_of form code }
{
    match form {
        AccessForm::Readable => match code {
            1 => Some(Access::ReadOnly),
            3 => Some(Access::ReadWrite),
            _ => None,
        },
        AccessForm::OneLevel => match code {
            1 => Some(Access::ReadWrite),
            3 => Some(Access::ReadOnly),
            _ => None,
        },
        AccessForm::TwoLevels => match code {
            0 => Some(Access::ReadWrite),
            2 => Some(Access::ReadOnly),
            _ => None,
        },
        AccessForm::Each => match code {
            0 => Some(Access::Neither),
            1 => Some(Access::ReadOnly),
            2 => Some(Access::WriteOnly),
            3 => Some(Access::ReadWrite),
            _ => None,
        },
    }
}

pub fn execute_in(form: ExecuteForm, code: u64) -> Option<Execute>
    ensures { result ≡ execute_of form code }
{
    match form {
        ExecuteForm::OneBit => match code {
            0 => Some(Execute::Everybody),
            2 => Some(Execute::Nobody),
            _ => None,
        },
        ExecuteForm::UxnPxn => match code {
            0 => Some(Execute::Everybody),
            1 => Some(Execute::UnprivilegedAlone),
            2 => Some(Execute::PrivilegedAlone),
            3 => Some(Execute::Nobody),
            _ => None,
        },
        ExecuteForm::XnPair => match code {
            0 => Some(Execute::Everybody),
            1 => Some(Execute::UnprivilegedAlone),
            2 => Some(Execute::Nobody),
            3 => Some(Execute::PrivilegedAlone),
            _ => None,
        },
    }
}

pub fn state_in(has_states: bool, code: u64) -> Option<Option<State>>
    ensures { result ≡ state_of has_states code }
{
    if has_states {
        match code {
            0 => Some(Some(State::Owned)),
            1 => Some(Some(State::SharedOwned)),
            2 => Some(Some(State::SharedBorrowed)),
            _ => None,
        }
    } else {
        match code {
            0 => Some(None),
            _ => None,
        }
    }
}

pub fn aged_in(ages: bool, flag: u64) -> Option<bool>
    ensures { result ≡ aged_of ages flag }
{
    if flag == 1 {
        Some(false)
    } else if ages {
        Some(true)
    } else {
        None
    }
}

pub fn guarded_in(guards: bool, bit: u64) -> Option<bool>
    ensures { result ≡ guarded_of guards bit }
{
    if bit == 0 {
        Some(false)
    } else if guards {
        Some(true)
    } else {
        None
    }
}

pub fn frame_in(lpa2: bool, word: u64) -> u64
    ensures { result ≡ frame_of lpa2 word }
{
    if lpa2 {
        bits(word, 12, 38) + (bits(word, 8, 2) << 38)
    } else {
        bits(word, 12, 36)
    }
}

pub fn is_beside_address(lpa2: bool, share: u64, word: u64) -> bool
    ensures { result ≡ has_beside_address lpa2 share word }
{
    if lpa2 {
        true
    } else {
        bits(word, 8, 2) == share && bits(word, 48, 2) == 0
    }
}

fn page_bit_of(level: Level) -> u64
    ensures { result ≡ page_bit level }
{
    match level {
        Level::Three => 1,
        Level::Zero | Level::One | Level::Two => 0,
    }
}

fn has_leaves_at(level: Level) -> bool
    ensures { result ≡ has_leaves level }
{
    match level {
        Level::Zero => false,
        Level::One | Level::Two | Level::Three => true,
    }
}

/// Whether tables may be below words of the level.
pub fn is_upper_level(level: Level) -> bool
    ensures { result ≡ is_upper level }
{
    match level {
        Level::Three => false,
        Level::Zero | Level::One | Level::Two => true,
    }
}

/// Whether a word has the bits that every leaf of the level has.
pub fn is_leaf_form(lpa2: bool, level: Level, word: u64) -> bool
    ensures { result ≡ has_leaf_form lpa2 level word }
{
    has_leaves_at(level)
        && bits(word, 0, 1) == 1
        && bits(word, 1, 1) == page_bit_of(level)
        && is_beside_address(lpa2, 3, word)
        && bits(word, 11, 1) == 0
        && bits(word, 51, 2) == 0
        && bits(word, 57, 7) == 0
        && frame_in(lpa2, word) % block_pages_of(level) == 0
}
