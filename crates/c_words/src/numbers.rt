//! The numbers of the variants.
ghost use Rattle.std.specs.Prelude.{◌≡◌, Some};
ghost use Rattle.c_words.specs.Numbers.{
  kind_from_c,
  kind_written,
  level_from_c,
  refusal_from_c,
  refusal_written,
  rights_from_c,
  rights_written,
  state_from_c,
  state_written,
  vm_kind_from_c,
};

use call_table::{Refusal, VmKind};
use descriptor::{Kind, Level, Prot, State};

/// The level of a number, 0 to 3 (Arm DDI 0487, D8.2).
pub fn level_of(number: u64) -> Option<Level>
    ensures { result ≡ level_from_c number }
{
    match number {
        0 => Some(Level::Zero),
        1 => Some(Level::One),
        2 => Some(Level::Two),
        3 => Some(Level::Three),
        _ => None,
    }
}

/// The rights of a number: the sum of 4 for read, 2 for write and 1 for execute.
pub fn rights_of(number: u64) -> Option<Prot>
    ensures { result ≡ rights_from_c number }
{
    match number {
        4 => Some(Prot::R),
        5 => Some(Prot::RX),
        6 => Some(Prot::RW),
        7 => Some(Prot::RWX),
        _ => None,
    }
}

/// The number of rights.
pub fn rights_number(prot: Prot) -> u64
    ensures said { rights_from_c result ≡ Some prot }
    ensures written { result ≡ rights_written prot }
{
    match prot {
        Prot::R => 4,
        Prot::RX => 5,
        Prot::RW => 6,
        Prot::RWX => 7,
    }
}

/// The kind of memory of a number: 0 Normal, 1 Device.
pub fn kind_of(number: u64) -> Option<Kind>
    ensures { result ≡ kind_from_c number }
{
    match number {
        0 => Some(Kind::Normal),
        1 => Some(Kind::Device),
        _ => None,
    }
}

/// The number of a kind of memory.
pub fn kind_number(kind: Kind) -> u64
    ensures said { kind_from_c result ≡ Some kind }
    ensures written { result ≡ kind_written kind }
{
    match kind {
        Kind::Normal => 0,
        Kind::Device => 1,
    }
}

/// The state of a number: 0 Owned, 1 SharedOwned, 2 SharedBorrowed.
pub fn state_of(number: u64) -> Option<State>
    ensures { result ≡ state_from_c number }
{
    match number {
        0 => Some(State::Owned),
        1 => Some(State::SharedOwned),
        2 => Some(State::SharedBorrowed),
        _ => None,
    }
}

/// The number of a state.
pub fn state_number(state: State) -> u64
    ensures said { state_from_c result ≡ Some state }
    ensures written { result ≡ state_written state }
{
    match state {
        State::Owned => 0,
        State::SharedOwned => 1,
        State::SharedBorrowed => 2,
    }
}

/// The kind of VMs of a number: 0 Plain, 1 Protected.
pub fn vm_kind_of(number: u64) -> Option<VmKind>
    ensures { result ≡ vm_kind_from_c number }
{
    match number {
        0 => Some(VmKind::Plain),
        1 => Some(VmKind::Protected),
        _ => None,
    }
}

/// The number of a kind of VMs.
pub fn vm_kind_number(kind: VmKind) -> u64
    ensures { vm_kind_from_c result ≡ Some kind }
{
    match kind {
        VmKind::Plain => 0,
        VmKind::Protected => 1,
    }
}

/// The refusal of a number, which is the reply's without its sign (profile).
pub fn refusal_of(number: u64) -> Option<Refusal>
    ensures { result ≡ refusal_from_c number }
{
    match number {
        1 => Some(Refusal::Perm),
        2 => Some(Refusal::NoVm),
        11 => Some(Refusal::Contended),
        12 => Some(Refusal::NoMemory),
        16 => Some(Refusal::Busy),
        22 => Some(Refusal::Invalid),
        28 => Some(Refusal::NoPool),
        75 => Some(Refusal::LogFull),
        _ => None,
    }
}

/// The number of a refusal. It isn't 0.
pub fn refusal_number(refusal: Refusal) -> u64
    ensures said { refusal_from_c result ≡ Some refusal }
    ensures written { result ≡ refusal_written refusal }
{
    match refusal {
        Refusal::Perm => 1,
        Refusal::NoVm => 2,
        Refusal::Contended => 11,
        Refusal::NoMemory => 12,
        Refusal::Busy => 16,
        Refusal::Invalid => 22,
        Refusal::NoPool => 28,
        Refusal::LogFull => 75,
    }
}
