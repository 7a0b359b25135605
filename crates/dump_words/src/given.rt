//! All words of a dump: its roots, and the pages that are skipped.
ghost use Rattle.std.specs.Prelude.{◌≡◌, ◌≤◌, ◌<◌, ◌^◌, ◌+◌, ℕ, ◌∷◌, [], ◌++◌, All, IfOk, List, length, map, take};
ghost use Rattle.std.specs.List.{list_any};
ghost use Rattle.dump_words.specs.Lists.{AreAllLow, AreRead, IsGiven, given_by, is_narrow, profile_for as profile_for_tree, read_all, root_by, roots_by, texts_in};
ghost use Rattle.dump_words.specs.Words.{IsLowGuest, IsLowRoot, guest_of, profile_of_word, skip_of};
ghost use Rattle.image_dump.specs.Dumped.{IsRoot};

use crate::profiles::profile_word;
use crate::roots::{RootWord, guest_word, root_word};
use crate::trees::skip_word;
use image_dump::Skip;
use image_trees::Root;
use std::alloc::{AllocError, Global};
use table_words::{Profile, model};
use thiserror::Error;

/// What a dump is asked for.
#[derive(Drop)]
pub struct Given {
    /// The roots: the host's, the hypervisor's, and those of guests.
    pub roots: Vec<Root>,
    /// The pages that are skipped.
    pub skips: Vec<Skip>,
}

/// Of which kind a word isn't of its form: the first kind, in this order.
#[derive(Clone, Copy, PartialEq, Eq, Debug, Error)]
pub enum BadWord {
    #[error("--host wants FRAME[:LEVEL[:PAGES]], a frame below 2^40, level -1 to 3, 1 to 16 pages, at level -1 one")]
    Host,
    #[error("--hyp wants FRAME[:LEVEL[:PAGES]], a frame below 2^40, level -1 to 3, 1 to 16 pages, at level -1 one")]
    Hyp,
    #[error("there are at most 64 guests")]
    ManyGuests,
    #[error("--guest wants N=FRAME[:LEVEL[:PAGES]], N from 0 to 63")]
    Guest,
    #[error("--profile wants TREE=NAME, TREE host, hyp or a guest's number, NAME model, or 6.12 or 7.3, then -fwb or -hvhe or nothing, then -lpa2 or nothing")]
    Profile,
    #[error("level -1 is only for a tree whose profile has -lpa2")]
    Narrow,
    #[error("--skip wants TREE=FIRST-LAST, TREE host, hyp or a guest's number")]
    Skip,
}

/// Why words ask for no dump.
#[derive(Clone, Copy, PartialEq, Eq, Debug)]
pub enum NotGiven {
    Bad(BadWord),
    NoMemory,
}

impl From<AllocError> for NotGiven {
    ghost use Rattle.dump_words.specs.declared.given.NotGiven.TheVariants.{NoMemory};

    ghost from_gives = { λ _ fault. fault ≡ NoMemory };

    fn from(_error: AllocError) -> NotGiven {
        NotGiven::NoMemory
    }
}

fn guests_in(alloc: Global, words: &[&str]) -> Result<Option<Vec<(u64, RootWord)>>, AllocError>
    ensures read { AreRead (λ found. found.items) (read_all guest_of (map (λ word. word.now) words.now)) result }
    ensures low { AreAllLow (length words.now) result }
{
    let mut found = Vec::with_capacity(alloc, words.len())?;
    for i in 0..words.len() {
        match guest_word(words[i].as_bytes()) {
            Some(guest) => found.push(guest)?,
            None => return Ok(None),
        }
    }
    Ok(Some(found))
}

fn profiles_in(alloc: Global, words: &[&str]) -> Result<Option<Vec<(u64, Profile)>>, AllocError>
    ensures { AreRead (λ found. found.items)
        (read_all profile_of_word (map (λ word. word.now) words.now)) result }
{
    let mut found = Vec::with_capacity(alloc, words.len())?;
    for i in 0..words.len() {
        match profile_word(words[i].as_bytes()) {
            Some(profile) => found.push(profile)?,
            None => return Ok(None),
        }
    }
    Ok(Some(found))
}

fn skips_in(alloc: Global, words: &[&str]) -> Result<Option<Vec<Skip>>, AllocError>
    ensures { AreRead (λ found. found.items) (read_all skip_of (map (λ word. word.now) words.now)) result }
{
    let mut found = Vec::with_capacity(alloc, words.len())?;
    for i in 0..words.len() {
        match skip_word(words[i].as_bytes()) {
            Some(skip) => found.push(skip)?,
            None => return Ok(None),
        }
    }
    Ok(Some(found))
}

/// The profile of a tree: the first that is given for it, otherwise the model's.
fn profile_for(profiles: &[(u64, Profile)], tree: u64) -> Profile
    ensures { result ≡ profile_for_tree profiles.now tree }
{
    for i in 0..profiles.len() {
        let (of, profile) = profiles[i];
        if of == tree {
            return profile;
        }
    }
    model()
}

/// The root of a tree.
fn root(profiles: &[(u64, Profile)], tree: u64, word: RootWord) -> Root
    requires { IsLowRoot word }
    ensures is { result ≡ root_by profiles.now tree word }
    ensures root { IsRoot result }
{
    Root {
        tree,
        frame: word.frame,
        depth: word.depth as u32,
        count: word.pages,
        profile: profile_for(profiles, tree),
    }
}

/// The roots of all trees.
fn roots_in(
    alloc: Global,
    profiles: &[(u64, Profile)],
    host: RootWord,
    hyp: RootWord,
    guests: &[(u64, RootWord)],
) -> Result<Vec<Root>, AllocError>
    requires host { IsLowRoot host }
    requires hyp { IsLowRoot hyp }
    requires guests { All IsLowGuest guests.now }
    requires few { length guests.now ≤ 64 }
    ensures read { IfOk result (λ roots. roots.items ≡ roots_by profiles.now host hyp guests.now) }
    ensures roots { IfOk result (λ roots. All IsRoot roots.items) }
{
    let mut roots = Vec::with_capacity(alloc, guests.len() + 2)?;
    roots.push(root(profiles, 0, host))?;
    roots.push(root(profiles, 1, hyp))?;
    for i in 0..guests.len() {
        let (guest, word) = guests[i];
        roots.push(root(profiles, guest + 2, word))?;
    }
    Ok(roots)
}

/// Whether a root is of level -1 without addresses of 52 bits.
fn has_narrow(roots: &[Root]) -> bool
    ensures { result ≡ list_any is_narrow roots.now }
{
    roots
        .iter()
        .any(|root| root.depth == 4 && !root.profile.lpa2)
}

/// Reads all words of a dump. Without a profile a tree's words are the model's.
pub fn read_words(
    alloc: Global,
    host: &[u8],
    hyp: &[u8],
    guests: &[&str],
    profiles: &[&str],
    skips: &[&str],
) -> Result<Given, NotGiven>
    ensures read { IsGiven
        (given_by host.now hyp.now (texts_in guests.now) (texts_in profiles.now)
        (texts_in skips.now)) result }
    ensures roots { IfOk result (λ given. All IsRoot given.roots.items) }
    ensures few { IfOk result (λ given. length given.roots.items ≤ 66) }
{
    let Some(own) = root_word(host) else {
        return Err(NotGiven::Bad(BadWord::Host));
    };
    let Some(other) = root_word(hyp) else {
        return Err(NotGiven::Bad(BadWord::Hyp));
    };
    if guests.len() > 64 {
        return Err(NotGiven::Bad(BadWord::ManyGuests));
    }
    let Some(guests) = guests_in(alloc, guests)? else {
        return Err(NotGiven::Bad(BadWord::Guest));
    };
    let Some(profiles) = profiles_in(alloc, profiles)? else {
        return Err(NotGiven::Bad(BadWord::Profile));
    };
    let roots = roots_in(alloc, profiles.as_slice(), own, other, guests.as_slice())?;
    if has_narrow(roots.as_slice()) {
        return Err(NotGiven::Bad(BadWord::Narrow));
    }
    let Some(skips) = skips_in(alloc, skips)? else {
        return Err(NotGiven::Bad(BadWord::Skip));
    };
    Ok(Given { roots, skips })
}
