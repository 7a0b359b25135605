//! The model's descriptor of a word of Linux.
ghost use Rattle.std.specs.Prelude.{◌≡◌};
ghost use Rattle.c_profiles.specs.Words.{desc_by, or_malformed, owner_by_handle};

use descriptor::{Desc, Owner, State};
use table_words::{Decoded, Guest, InvalidForm, Profile, entry};

/// The handle of the guest in slot 0, and what a handle has more than the owner's number.
const FIRST_HANDLE: u64 = 0x1000;

fn by_handle(form: InvalidForm, guest: Guest) -> Desc
    ensures { result ≡ owner_by_handle form guest }
{
    match form {
        InvalidForm::Donation => {
            if guest.handle < FIRST_HANDLE {
                Desc::Malformed
            } else {
                Desc::Annotated(Owner(guest.handle - 0xffe))
            }
        }
        InvalidForm::OwnerByte
        | InvalidForm::OwnerOrLock
        | InvalidForm::Lock
        | InvalidForm::Poison
        | InvalidForm::ClearedLeaf => Desc::Malformed,
    }
}

fn known(desc: Option<Desc>) -> Desc
    ensures { result ≡ or_malformed desc }
{
    match desc {
        Some(desc) => desc,
        None => Desc::Malformed,
    }
}

/// The model's descriptor for a decoded word of a profile, with `state` if words say none: of an annotation that names a guest by
/// its handle the annotation of that guest; Malformed for a leaf that can't be read.
pub fn desc_as(profile: &Profile, state: State, decoded: &Decoded) -> Desc
    ensures { result ≡ desc_by profile.now state decoded.now }
{
    match *decoded {
        Decoded::Annotated {
            owner: _,
            guest: Some(guest),
        } => by_handle(profile.invalid, guest),
        Decoded::Malformed
        | Decoded::Unmapped
        | Decoded::Annotated { .. }
        | Decoded::Poisoned
        | Decoded::Locked
        | Decoded::Cleared(_)
        | Decoded::Leaf(_)
        | Decoded::Table(_) => known(entry(decoded, state)),
    }
}
