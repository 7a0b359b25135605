//! Records that a hypervisor keeps of frames, and the states that they say.
ghost use Rattle.std.specs.Prelude.{◌≡◌, ◌+◌, ◌^◌, ◌≤◌, ◌<◌, All, IfErr, IfOk, OnOk, length};
ghost use Rattle.std.specs.Option.{ForSome};
ghost use Rattle.memory_image.specs.CoreFile.{IsPlaced};
ghost use Rattle.page_state.specs.Regions.{is_in_range};
ghost use Rattle.run_list.specs.Runs.{map_updated, run_end, run_map, AreInReach, EndBefore, InReach, IsCoarsest};
ghost use Rattle.run_list.specs.View.{IsKept};
ghost use Rattle.walked_tables.specs.Values.{advance_said, CanGoOn};
ghost use Rattle.image_trees.specs.Records.{
  denied_from,
  denied_in,
  frame_of,
  is_asked,
  is_denied,
  mapped_frame,
  reads_alone,
  records_in,
  recorded_state,
  state_numbered,
  stated,
  CanRead,
  IsStated,
  WereLaid,
};
ghost use Rattle.image_trees.specs.Unwalked.{IsFailed};

use descriptor::State;
use memory_image::{ImageBytes, Refused, Segment, page_buffer, read_page};
use page_state::{Page, PageRange};
use run_list::{Advance, Run, push_run};
use std::alloc::{AllocError, Global};
use table_words::{Access, Decoded, Execute, Mapping};
use walked_tables::Said;

/// The place of the records of frames: the runs of the hypervisor's own tree, and its page from which on it maps the
/// records, eight bytes for each frame (Linux 7.3: `__hyp_vmemmap`).
#[derive(Drop)]
pub struct Records {
    pub hyp: Vec<Run<Said>>,
    pub first: u64,
}

/// Whether a run has a page.
fn holds(run: &Run<Said>, page: u64) -> bool
    ensures { result ≡ is_in_range run.now.pages page }
{
    let first = run.pages.first.0;
    first <= page && page - first < run.pages.count
}

/// The frame of a leaf.
fn leaf_frame(said: Said) -> Option<u64>
    ensures { result ≡ frame_of said.0 }
{
    match said.0 {
        Decoded::Leaf(mapping) => Some(mapping.frame.0),
        Decoded::Malformed
        | Decoded::Unmapped
        | Decoded::Annotated { .. }
        | Decoded::Poisoned
        | Decoded::Locked
        | Decoded::Cleared(_)
        | Decoded::Table(_) => None,
    }
}

/// The frame that a page is mapped to.
fn frame_at(runs: &[Run<Said>], page: u64) -> Option<u64>
    requires { AreInReach CanGoOn runs.now }
    ensures { result ≡ mapped_frame (run_map advance_said runs.now page) }
{
    for i in 0..runs.len() {
        let run = runs[i];
        if holds(&run, page) {
            return leaf_frame(run.value.advanced(page - run.pages.first.0));
        }
    }
    None
}

/// The state that has a number (Linux, `enum pkvm_page_state`).
fn state_of_number(number: u64) -> Option<State>
    ensures { result ≡ state_numbered number }
{
    if number == 0 {
        Some(State::Owned)
    } else if number == 1 {
        Some(State::SharedOwned)
    } else if number == 2 {
        Some(State::SharedBorrowed)
    } else {
        None
    }
}

/// The state that a record says for a tree.
fn state_in(tree: u64, word: u64) -> Option<State>
    ensures { result ≡ recorded_state tree word }
{
    if tree == 0 {
        return state_of_number(word / (1 << 24) % 16);
    }
    let complement = word / (1 << 28) % 16;
    if complement <= 3 {
        state_of_number(3 - complement)
    } else {
        None
    }
}

/// The record of a frame.
fn record_of<I: ImageBytes>(
    alloc: Global,
    image: &I,
    segments: &[Segment],
    records: &Records,
    frame: u64,
    buffer: &mut [u8],
) -> Result<Option<u64>, Refused>
    requires placed { All IsPlaced segments.now }
    requires room { length buffer.old ≡ 4096 }
    requires records { CanRead records.now }
    requires frame { frame ≤ 2 ^ 63 }
    ensures record { IfOk result
        (λ word. ForSome (I.bytes image.now)
        (λ all. word ≡ records_in all segments.now records.now frame)) }
    ensures failed { IfErr result (IsFailed (I.may_fail image.now)) }
{
    let Some(at) = frame_at(records.hyp.as_slice(), records.first + frame / 512) else {
        return Ok(None);
    };
    match read_page(alloc, image, segments, at, buffer)? {
        Some(words) => Ok(Some(words[(frame % 512) as usize])),
        None => Ok(None),
    }
}

/// Frames are below this one.
const FRAMES: u64 = 1 << 63;

/// Whether a record says that a tree doesn't have the frame.
fn denies(tree: u64, word: Option<u64>) -> bool
    ensures { result ≡ is_denied tree word }
{
    match word {
        Some(word) => if tree == 0 {
            word / (1 << 24) % 16 == 3
        } else {
            word / (1 << 28) % 16 == 0
        },
        None => false,
    }
}

/// The first of a range's frames that its record denies to a tree.
fn first_denied<I: ImageBytes>(
    alloc: Global,
    image: &I,
    segments: &[Segment],
    records: &Records,
    tree: u64,
    frame: u64,
    count: u64,
    buffer: &mut [u8],
) -> Result<Option<u64>, Refused>
    requires placed { All IsPlaced segments.now }
    requires room { length buffer.old ≡ 4096 }
    requires records { CanRead records.now }
    ensures first { IfOk result
        (λ found. ForSome (I.bytes image.now)
        (λ all. found ≡ denied_from (records_in all segments.now records.now) tree frame count)) }
    ensures failed { IfErr result (IsFailed (I.may_fail image.now)) }
{
    for k in 0..count {
        let at = frame.saturating_add(k);
        if at >= FRAMES {
            return Ok(None);
        }
        let word = record_of(alloc, image, segments, records, at, buffer)?;
        if denies(tree, word) {
            return Ok(Some(at));
        }
    }
    Ok(None)
}

/// Whether a leaf lets data be read, and nothing else.
fn is_read_alone(mapping: &Mapping) -> bool
    ensures { result ≡ reads_alone mapping.now.access mapping.now.execute }
{
    match (mapping.access, mapping.execute) {
        (Access::ReadOnly, Execute::Nobody) => true,
        _ => false,
    }
}

/// Whether a leaf is one too many if its record denies it.
fn is_at_issue(tree: u64, mapping: &Mapping) -> bool
    ensures { result ≡ is_asked tree mapping.now }
{
    mapping.state.is_none() && !(tree == 0 && is_read_alone(mapping))
}

/// The first frame of a tree's run that the frame's record denies: of a leaf without a state, and of the host's (0) none that
/// lets it read alone. The buffer is used for pages of records.
pub fn denied_frame<I: ImageBytes>(
    alloc: Global,
    image: &I,
    segments: &[Segment],
    records: &Records,
    tree: u64,
    run: &Run<Said>,
    buffer: &mut [u8],
) -> Result<Option<u64>, Refused>
    requires placed { All IsPlaced segments.now }
    requires room { length buffer.old ≡ 4096 }
    requires records { CanRead records.now }
    ensures first { IfOk result
        (λ found. ForSome (I.bytes image.now)
        (λ all. found ≡ denied_in (records_in all segments.now records.now) tree run.now)) }
    ensures failed { IfErr result (IsFailed (I.may_fail image.now)) }
{
    match run.value.0 {
        Decoded::Leaf(mapping) => {
            if !is_at_issue(tree, &mapping) {
                return Ok(None);
            }
            let (frame, count) = (mapping.frame.0, run.pages.count);
            first_denied(alloc, image, segments, records, tree, frame, count, buffer)
        }
        Decoded::Malformed
        | Decoded::Unmapped
        | Decoded::Annotated { .. }
        | Decoded::Poisoned
        | Decoded::Locked
        | Decoded::Cleared(_)
        | Decoded::Table(_) => Ok(None),
    }
}

/// What a page has, with the state that the record of its frame says.
fn with_state<I: ImageBytes>(
    alloc: Global,
    image: &I,
    segments: &[Segment],
    records: &Records,
    tree: u64,
    said: Said,
    buffer: &mut [u8],
) -> Result<Said, Refused>
    requires placed { All IsPlaced segments.now }
    requires room { length buffer.old ≡ 4096 }
    requires records { CanRead records.now }
    requires frame { CanGoOn said 1 }
    ensures stated { IfOk result
        (λ value. ForSome (I.bytes image.now)
        (λ all. value ≡ stated (records_in all segments.now records.now) tree said)) }
    ensures reach { IfOk result (λ value. CanGoOn value 1) }
    ensures failed { IfErr result (IsFailed (I.may_fail image.now)) }
{
    match said.0 {
        Decoded::Leaf(mapping) => {
            let word = record_of(alloc, image, segments, records, mapping.frame.0, buffer)?;
            let state = match word {
                Some(word) => state_in(tree, word),
                None => None,
            };
            Ok(Said(Decoded::Leaf(Mapping { state, ..mapping })))
        }
        Decoded::Malformed
        | Decoded::Unmapped
        | Decoded::Annotated { .. }
        | Decoded::Poisoned
        | Decoded::Locked
        | Decoded::Cleared(_)
        | Decoded::Table(_) => Ok(said),
    }
}

/// Appends a page to the runs.
fn add_page(runs: &mut Vec<Run<Said>>, page: u64, value: Said) -> Result<(), AllocError>
    requires page { page + 1 ≤ 2 ^ 63 }
    requires reach { CanGoOn value 1 }
    requires kept { IsKept advance_said CanGoOn runs.old.items }
    requires behind { EndBefore (page + 1) runs.old.items }
    ensures map { OnOk result
        (run_map advance_said runs.new.items
        ≡ map_updated advance_said (run_map advance_said runs.old.items) page 1
        (Some value)) }
    ensures kept { OnOk result (IsKept advance_said CanGoOn runs.new.items) }
    ensures behind { OnOk result (EndBefore (page + 2) runs.new.items) }
{
    let pages = PageRange {
        first: Page(page),
        count: 1,
    };
    push_run(runs, Run { pages, value })?;
    Ok(())
}

/// Adds the pages of a run, with their states.
fn add_run<I: ImageBytes>(
    alloc: Global,
    image: &I,
    segments: &[Segment],
    records: &Records,
    tree: u64,
    run: Run<Said>,
    out: &mut Vec<Run<Said>>,
    buffer: &mut [u8],
) -> Result<(), Refused>
    requires placed { All IsPlaced segments.now }
    requires room { length buffer.old ≡ 4096 }
    requires records { CanRead records.now }
    requires run { InReach CanGoOn run }
    requires out { IsKept advance_said CanGoOn out.old.items × EndBefore (run.pages.first.0 + 1) out.old.items }
    ensures map { OnOk result
        (WereLaid
        (I.bytes image.now) segments.now records.now tree run out.old.items out.new.items) }
    ensures kept { OnOk result (IsKept advance_said CanGoOn out.new.items) }
    ensures behind { OnOk result (EndBefore (run_end run + 1) out.new.items) }
    ensures failed { IfErr result (IsFailed (I.may_fail image.now)) }
{
    for k in 0..run.pages.count {
        let said = run.value.advanced(k);
        let value = with_state(alloc, image, segments, records, tree, said, buffer)?;
        add_page(out, run.pages.first.0 + k, value)?;
    }
    Ok(())
}

/// A tree's runs with the states that records say: the host's (0), or the hypervisor's. A leaf whose frame has no record, or one
/// that says no state, has none.
pub fn with_states<I: ImageBytes>(
    alloc: Global,
    image: &I,
    segments: &[Segment],
    records: &Records,
    tree: u64,
    runs: &[Run<Said>],
) -> Result<Vec<Run<Said>>, Refused>
    requires placed { All IsPlaced segments.now }
    requires records { CanRead records.now }
    requires coarsest { IsCoarsest advance_said runs.now }
    requires reach { AreInReach CanGoOn runs.now }
    ensures stated { IfOk result
        (λ out. IsStated (I.bytes image.now) segments.now records.now tree runs.now out.items) }
    ensures failed { IfErr result (IsFailed (I.may_fail image.now)) }
{
    let mut buffer = page_buffer(alloc)?;
    let bytes = buffer.as_mut_slice();
    let mut out = Vec::new(alloc);
    for i in 0..runs.len() {
        add_run(
            alloc, image, segments, records, tree, runs[i], &mut out, bytes,
        )?;
    }
    Ok(out)
}
