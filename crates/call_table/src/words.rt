//! The words for kinds of VMs, and the parsing of kinds and rights.
ghost use Rattle.std.specs.Prelude.{◌≡◌};
ghost use Rattle.std.specs.Str.{bytes_eq};
ghost use Rattle.call_table.specs.Words.{rights_named as rights_named_by, text_of_vm_kind, vm_kind_named as vm_kind_named_by};

use crate::VmKind;
use page_state::Prot;

/// The word for a kind of VMs, as traces have it.
pub fn vm_kind_word(kind: VmKind) -> &'static str
    ensures { result.now ≡ text_of_vm_kind kind }
{
    match kind {
        VmKind::Protected => "protected",
        VmKind::Plain => "plain",
    }
}

fn is_word(word: &[u8], name: &[u8]) -> bool
    ensures { result ≡ bytes_eq word.now name.now }
{
    word == name
}

/// The kind of VMs that a word names: "protected" or "plain", None for any other.
pub fn vm_kind_named(word: &[u8]) -> Option<VmKind>
    ensures { result ≡ vm_kind_named_by word.now }
{
    if is_word(word, b"protected") {
        return Some(VmKind::Protected);
    }
    if is_word(word, b"plain") {
        return Some(VmKind::Plain);
    }
    None
}

/// The rights that a word names: "r", "rw", "rx" or "rwx", None for any other.
pub fn rights_named(word: &[u8]) -> Option<Prot>
    ensures { result ≡ rights_named_by word.now }
{
    if is_word(word, b"r") {
        return Some(Prot::R);
    }
    if is_word(word, b"rw") {
        return Some(Prot::RW);
    }
    if is_word(word, b"rx") {
        return Some(Prot::RX);
    }
    if is_word(word, b"rwx") {
        return Some(Prot::RWX);
    }
    None
}
