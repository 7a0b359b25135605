//! What pages have, as the model's entries.
ghost use Rattle.std.specs.Prelude.{◌≡◌, ◌^◌, ◌≤◌, IfOk, map};
ghost use Rattle.std.specs.Option.{ForSome};
ghost use Rattle.page_state.specs.Entries.{advance_target, entry_of, target_of};
ghost use Rattle.page_state.specs.Runs.{map_of, IsCoarsest};
ghost use Rattle.run_list.specs.Runs.{run_map, AreInReach, IsCoarsest as IsCoarsestList};
ghost use Rattle.run_list.specs.Targets.{HasFrameBelow};
ghost use Rattle.ghost_trees.specs.Small.{AreSmall};
ghost use Rattle.maplets.specs.View.{target_run, target_runs};
ghost use Rattle.walked_tables.specs.Values.{advance_said, CanGoOn};
ghost use Rattle.c_trees.specs.Entries.{entries_by, entry_by, run_in, state_for, state_in as state_in_entry};

use c_profiles::desc_as;
use page_state::{Entry, Page, PageRange, Run, State, Target};
use run_changes::until;
use run_list::RunList;
use std::alloc::{AllocError, Global};
use table_words::Profile;
use walked_tables::Said;

/// The pages are below this one.
const END: u64 = 0x8000_0000_0000_0000;

fn entry_in(target: Option<Target>) -> Entry
    ensures { result ≡ entry_of target }
{
    match target {
        Some(target) => Entry::from(target),
        None => Entry::Unmapped,
    }
}

fn state_in(entry: Entry) -> State
    ensures { result ≡ state_in_entry entry }
{
    match entry {
        Entry::Leaf { state, .. } => state,
        Entry::Unmapped | Entry::Malformed | Entry::Annotated(_) => State::Owned,
    }
}

/// The entry of a page, of what it has and of the kept one.
fn entry(profile: &Profile, kept: Entry, said: Option<Said>) -> Entry
    ensures { result ≡ entry_by profile.now kept said }
{
    let state = if profile.has_states {
        State::Owned
    } else {
        state_in(kept)
    };
    match said {
        Some(said) => Entry::from(desc_as(profile, state, &said.0)),
        None => Entry::Unmapped,
    }
}

/// A kept run as one of a list.
fn list_run(run: Run) -> run_list::Run<Target>
    ensures { result ≡ run_in run }
{
    run_list::Run {
        pages: run.pages,
        value: run.target,
    }
}

/// Kept runs as those of a list.
fn list_runs(alloc: Global, runs: &[Run]) -> Result<Vec<run_list::Run<Target>>, AllocError>
    ensures { IfOk result (λ v. v.items ≡ map run_in runs.now) }
{
    runs.iter().map(|run| list_run(*run)).collect(alloc)
}

/// Kept runs as a list.
fn listed(alloc: Global, runs: &[Run]) -> Result<RunList<Target>, AllocError>
    requires small { AreSmall runs.now }
    requires coarsest { IsCoarsest runs.now }
    ensures { IfOk result (λ list. target_runs list.runs ≡ runs.now) }
{
    let list = list_runs(alloc, runs)?;
    Ok(RunList::of(list))
}

/// A run of a list as one of a map.
fn map_run(run: run_list::Run<Target>) -> Run
    ensures { result ≡ target_run run }
{
    Run {
        pages: run.pages,
        target: run.value,
    }
}

/// Runs of a list as those of a map.
fn as_map(alloc: Global, runs: &[run_list::Run<Target>]) -> Result<Vec<Run>, AllocError>
    ensures { IfOk result (λ v. v.items ≡ target_runs runs.now) }
{
    runs.iter().map(|run| map_run(*run)).collect(alloc)
}

/// The entries of all pages, as a list.
fn merged(
    alloc: Global,
    profile: &Profile,
    kept: &RunList<Target>,
    said: &RunList<Said>,
) -> Result<RunList<Target>, AllocError>
    ensures { IfOk result
        (λ list. map_of (target_runs list.runs)
        ≡ entries_by profile.now (map_of (target_runs kept.now.runs)) (run_map advance_said said.now.runs)) }
{
    let old = kept.runs();
    let new = said.runs();
    let mut found = RunList::new(alloc);
    let mut low = 0;
    while low < END {
        let high = until(old, low).min(until(new, low));
        let pages = PageRange {
            first: Page(low),
            count: high - low,
        };
        let own = entry(profile, entry_in(kept.at(Page(low))), said.at(Page(low)));
        found.reserve(2)?;
        found.set(pages, own.target());
        low = high;
    }
    Ok(found)
}

/// The coarsest list of runs for the entries of all pages, by what they have and by the kept entries.
pub(crate) fn entries(
    alloc: Global,
    profile: &Profile,
    kept: &[Run],
    said: Vec<run_list::Run<Said>>,
) -> Result<Vec<Run>, AllocError>
    requires small { AreSmall kept.now }
    requires coarsest { IsCoarsest kept.now }
    requires said { IsCoarsestList advance_said said.items }
    requires reach { AreInReach CanGoOn said.items }
    ensures map { IfOk result
        (λ v. map_of v.items ≡ entries_by profile.now (map_of kept.now) (run_map advance_said said.items)) }
    ensures coarsest { IfOk result (λ v. IsCoarsest v.items) }
    ensures small { IfOk result (λ v. AreSmall v.items) }
{
    let list = listed(alloc, kept)?;
    let new = RunList::of(said);
    let found = merged(alloc, profile, &list, &new)?;
    let all = found.runs();
    let runs = as_map(alloc, all)?;
    Ok(runs)
}
