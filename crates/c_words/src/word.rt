//! Words of tables, and entries of maps.
ghost use Rattle.std.specs.Prelude.{◌≡◌, Some};
ghost use Rattle.c_words.specs.Said.{desc_of_entry as desc_of_entry_in, desc_from_c, entry_from_c, leaf_from_c, target_from_c};
ghost use Rattle.c_words.specs.Written.{desc_written, entry_written, leaf_written, target_written};

use crate::numbers::{kind_number, kind_of, rights_number, rights_of, state_number, state_of};
use descriptor::{Desc, Frame, Kind, Owner, Prot, State};
use page_state::{Entry, Target};

/// The meaning of a word. Fields that have no part in it are written as 0, and aren't read.
#[repr(C)]
#[derive(Clone, Copy, PartialEq)]
pub struct PlainWord {
    /// 0 malformed, 1 unmapped, 2 annotated, 3 a leaf, 4 a table.
    pub says: u64,
    /// Of a leaf and of a table: the frame.
    pub frame: u64,
    /// Of an annotation: the owner's number.
    pub owner: u64,
    /// Of a leaf: the sum of 4 for read, 2 for write and 1 for execute.
    pub rights: u64,
    /// Of a leaf: 0 Normal, 1 Device.
    pub kind: u64,
    /// Of a leaf: 0 owned, 1 shared and owned, 2 shared and borrowed.
    pub state: u64,
}

/// A word of zeros, which says malformed.
pub(crate) const BLANK: PlainWord = PlainWord {
    says: 0,
    frame: 0,
    owner: 0,
    rights: 0,
    kind: 0,
    state: 0,
};

/// The leaf that a word's fields say. None if one of its rights, kind and state is unknown.
fn leaf_of(word: PlainWord) -> Option<Entry>
    ensures { result ≡ leaf_from_c word }
{
    let prot = rights_of(word.rights)?;
    let kind = kind_of(word.kind)?;
    let state = state_of(word.state)?;
    Some(Entry::Leaf {
        frame: Frame(word.frame),
        prot,
        kind,
        state,
    })
}

/// The entry that a word says. None if it says a table or an unknown number.
pub fn entry_of(word: PlainWord) -> Option<Entry>
    ensures { result ≡ entry_from_c word }
{
    match word.says {
        0 => Some(Entry::Malformed),
        1 => Some(Entry::Unmapped),
        2 => Some(Entry::Annotated(Owner(word.owner))),
        3 => leaf_of(word),
        _ => None,
    }
}

/// The target that a word says. None also if it says unmapped.
pub fn target_of(word: PlainWord) -> Option<Target>
    ensures { result ≡ target_from_c word }
{
    let entry = entry_of(word)?;
    entry.target()
}

/// A leaf in numbers.
fn leaf_to_c(frame: Frame, prot: Prot, kind: Kind, state: State) -> PlainWord
    ensures said { entry_from_c result ≡ Some (Entry.Leaf frame prot kind state) }
    ensures written { result ≡ leaf_written frame prot kind state }
{
    PlainWord {
        says: 3,
        frame: frame.0,
        owner: 0,
        rights: rights_number(prot),
        kind: kind_number(kind),
        state: state_number(state),
    }
}

/// The word of an entry.
pub fn entry_to_c(entry: Entry) -> PlainWord
    ensures said { entry_from_c result ≡ Some entry }
    ensures written { result ≡ entry_written entry }
{
    match entry {
        Entry::Malformed => BLANK,
        Entry::Unmapped => PlainWord { says: 1, ..BLANK },
        Entry::Annotated(owner) => PlainWord {
            says: 2,
            owner: owner.0,
            ..BLANK
        },
        Entry::Leaf {
            frame,
            prot,
            kind,
            state,
        } => leaf_to_c(frame, prot, kind, state),
    }
}

/// The word of a target.
pub fn target_to_c(target: Target) -> PlainWord
    ensures said { target_from_c result ≡ Some target }
    ensures written { result ≡ target_written target }
{
    match target {
        Target::Malformed => BLANK,
        Target::Annotated(owner) => PlainWord {
            says: 2,
            owner: owner.0,
            ..BLANK
        },
        Target::Leaf {
            frame,
            prot,
            kind,
            state,
        } => leaf_to_c(frame, prot, kind, state),
    }
}

/// An entry as a descriptor.
fn desc_of_entry(entry: Entry) -> Desc
    ensures { result ≡ desc_of_entry_in entry }
{
    match entry {
        Entry::Malformed => Desc::Malformed,
        Entry::Unmapped => Desc::Unmapped,
        Entry::Annotated(owner) => Desc::Annotated(owner),
        Entry::Leaf {
            frame,
            prot,
            kind,
            state,
        } => Desc::Leaf {
            frame,
            prot,
            kind,
            state,
        },
    }
}

/// The descriptor that a word says. None if a number is unknown.
pub fn desc_of(word: PlainWord) -> Option<Desc>
    ensures { result ≡ desc_from_c word }
{
    if word.says == 4 {
        return Some(Desc::Table(Frame(word.frame)));
    }
    let entry = entry_of(word)?;
    Some(desc_of_entry(entry))
}

/// The word of a descriptor.
pub fn desc_to_c(desc: Desc) -> PlainWord
    ensures said { desc_from_c result ≡ Some desc }
    ensures written { result ≡ desc_written desc }
{
    match desc {
        Desc::Malformed => BLANK,
        Desc::Unmapped => PlainWord { says: 1, ..BLANK },
        Desc::Annotated(owner) => PlainWord {
            says: 2,
            owner: owner.0,
            ..BLANK
        },
        Desc::Leaf {
            frame,
            prot,
            kind,
            state,
        } => leaf_to_c(frame, prot, kind, state),
        Desc::Table(frame) => PlainWord {
            says: 4,
            frame: frame.0,
            ..BLANK
        },
    }
}
