//! Profiles by name.
ghost use Rattle.std.specs.Prelude.{◌≡◌, length, take};
ghost use Rattle.std.specs.Str.{bytes_eq};
ghost use Rattle.dump_words.specs.Words.{forms_of, given_forms, profile_by, profile_named, profile_of_word, starts};

use crate::cut::mark_at;
use crate::trees::tree_word;
use table_words::{Profile, Release, linux_guest, linux_host, linux_hypervisor, model};
use trace_words::is_name;

/// What a machine's tables are like.
#[derive(Clone, Copy, PartialEq)]
pub(crate) struct Forms {
    pub fwb: bool,
    pub hvhe: bool,
    pub lpa2: bool,
}

fn given(fwb: bool, hvhe: bool, lpa2: bool) -> Option<Forms>
    ensures { result ≡ given_forms fwb hvhe lpa2 }
{
    Some(Forms { fwb, hvhe, lpa2 })
}

/// The forms that follow a release: `-fwb` or `-hvhe` or neither, and then `-lpa2` or nothing.
fn forms_in(rest: &[u8]) -> Option<Forms>
    ensures { result ≡ forms_of rest.now }
{
    if is_name(rest, b"") {
        return given(false, false, false);
    }
    if is_name(rest, b"-fwb") {
        return given(true, false, false);
    }
    if is_name(rest, b"-hvhe") {
        return given(false, true, false);
    }
    if is_name(rest, b"-lpa2") {
        return given(false, false, true);
    }
    if is_name(rest, b"-fwb-lpa2") {
        return given(true, false, true);
    }
    if is_name(rest, b"-hvhe-lpa2") {
        return given(false, true, true);
    }
    None
}

/// Linux' profile of a tree: the host's and a guest's have no `-hvhe`, the hypervisor's no `-fwb`.
fn linux(tree: u64, release: Release, forms: Option<Forms>) -> Option<Profile>
    ensures { result ≡ profile_by tree release forms }
{
    let Some(forms) = forms else {
        return None;
    };
    if tree == 1 {
        if forms.fwb {
            return None;
        }
        return Some(linux_hypervisor(release, forms.hvhe, forms.lpa2));
    }
    if forms.hvhe {
        return None;
    }
    if tree == 0 {
        return Some(linux_host(release, forms.fwb, forms.lpa2));
    }
    Some(linux_guest(release, forms.fwb, forms.lpa2))
}

/// Whether a word starts so.
fn starts_with(word: &[u8], front: &[u8]) -> bool
    ensures { result ≡ starts word.now front.now }
{
    word.len() >= front.len() && is_name(&word[..front.len()], front)
}

/// The profile of a tree that a name says.
fn named(tree: u64, name: &[u8]) -> Option<Profile>
    ensures { result ≡ profile_named tree name.now }
{
    if is_name(name, b"model") {
        return Some(model());
    }
    if starts_with(name, b"6.12") {
        return linux(tree, Release::V6, forms_in(&name[4..]));
    }
    if starts_with(name, b"7.3") {
        return linux(tree, Release::V7, forms_in(&name[3..]));
    }
    None
}

/// The tree and its profile that a word says: `TREE=NAME`.
pub fn profile_word(word: &[u8]) -> Option<(u64, Profile)>
    ensures { result ≡ profile_of_word word.now }
{
    let Some(at) = mark_at(word, b'=') else {
        return None;
    };
    let Some(tree) = tree_word(&word[..at]) else {
        return None;
    };
    match named(tree, &word[at + 1..]) {
        Some(profile) => Some((tree, profile)),
        None => None,
    }
}
