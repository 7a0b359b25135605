//! Maps from pages to entries, and from frames to owner rows.
ghost use Rattle.std.specs.Prelude.{◌≡◌, ℕ, ◌+◌, ◌-◌, ◌^◌, ◌<◌, ◌≤◌, ◌++◌, IfOk, OnOk, Some, codes, is_some, string_bytes};
ghost use Rattle.page_state.specs.Entries.{advance_target, entry_of};
ghost use Rattle.page_state.specs.Rows.{advance_row, plain_row, HasPageBelow};
ghost use Rattle.page_state.specs.Runs.{map_of};
ghost use Rattle.page_state.specs.Texts.{text_of_entry, text_of_row};
ghost use Rattle.ghost_trees.specs.KeptTrees.{IsKeptTree};
ghost use Rattle.ghost_spec.specs.Views.{row_in};
ghost use Rattle.run_list.specs.Runs.{AreInReach, InReach, run_map};
ghost use Rattle.run_list.specs.Targets.{HasFrameBelow};
ghost use Rattle.run_changes.specs.Changes.{CanBoth};
ghost use Rattle.state_changes.specs.Changed.{change_line, guest_name, pages_name, run_lines, text_of_some_row, text_of_target, ReportsRows};
ghost use Rattle.state_changes.specs.Labels.{text_of_label};
ghost use Rattle.state_changes.specs.Lists.{list_runs};
ghost use Rattle.state_changes.specs.Together.{Adds};
ghost use Rattle.state_changes.specs.Told.{ReportsTree};

use crate::lines::add_change;
use ghost_trees::tree::Tree;
use page_state::{Entry, Owner, PageRange, Row, Target, Usage};
use run_changes::{Change, changes};
use run_list::{Run, RunList};
use std::alloc::{AllocError, Global};
use std::fmt;

/// Whose map it is.
#[derive(Clone, Copy)]
pub(crate) enum Label {
    Host,
    Hyp,
    Guest(u64),
    Owner,
}

impl fmt::Display for Label {
    ghost use Rattle.state_changes.specs.Labels.{text_of_label};

    ghost output = { λ label. Some (text_of_label label) };

    fn fmt<W: fmt::Write>(&self, f: &mut fmt::Formatter<W>) -> fmt::Result {
        match self {
            Label::Host => f.write_str("host"),
            Label::Hyp => f.write_str("hyp"),
            Label::Guest(slot) => write!(f, "guest {slot}"),
            Label::Owner => f.write_str("owner"),
        }
    }
}

/// The pages from one to another of a map.
#[derive(Clone, Copy)]
struct Pages {
    label: Label,
    first: u64,
    last: u64,
}

impl fmt::Display for Pages {
    ghost use Rattle.state_changes.specs.Labels.{text_of_label};

    ghost output = { λ pages. Some (pages_name (text_of_label pages.label) pages.first pages.last) };

    fn fmt<W: fmt::Write>(&self, f: &mut fmt::Formatter<W>) -> fmt::Result {
        let Pages { label, first, last } = *self;
        if first == last {
            write!(f, "{label} 0x{first:x}")
        } else {
            write!(f, "{label} 0x{first:x}..0x{last:x}")
        }
    }
}

/// Adds the changes of the entries of a tree's pages.
pub(crate) fn add_entries(
    text: &mut Vec<u8>,
    global: Global,
    label: Label,
    before: &Tree,
    after: &Tree,
) -> Result<(), AllocError>
    requires kept { IsKeptTree before.now }
    requires next { IsKeptTree after.now }
    ensures { OnOk result (Adds (ReportsTree label before.now after.now) text.old.items text.new.items) }
{
    let old = listed(global, before)?;
    let new = listed(global, after)?;
    let found = changes(global, &old, &new)?;
    add_entry_runs(text, global, label, found.runs())?;
    Ok(())
}

/// The runs of a tree's map as a list of runs.
fn listed(global: Global, tree: &Tree) -> Result<RunList<Target>, AllocError>
    requires { IsKeptTree tree.now }
    ensures { IfOk result (λ list. list.runs ≡ list_runs tree.now.runs.items) }
{
    let list = copied(global, tree.runs.as_slice())?;
    Ok(RunList::of(list))
}

fn copied(global: Global, runs: &[page_state::Run]) -> Result<Vec<Run<Target>>, AllocError>
    ensures { IfOk result (λ list. list.items ≡ list_runs runs.now) }
{
    let mut list = Vec::with_capacity(global, runs.len())?;
    for run in runs {
        list.push(Run {
            pages: run.pages,
            value: run.target,
        })?;
    }
    Ok(list)
}

/// A line for each run of pages whose entries changed.
fn add_entry_runs(
    text: &mut Vec<u8>,
    global: Global,
    label: Label,
    runs: &[Run<Change<Target>>],
) -> Result<(), AllocError>
    requires { AreInReach (CanBoth HasFrameBelow) runs.now }
    ensures { OnOk result
        (text.new.items
        ≡ text.old.items ++ run_lines text_of_target (text_of_label label) runs.now) }
{
    for run in runs {
        let name = named(global, label, run.pages)?;
        let was = entry_text(global, run.value.before)?;
        let is = entry_text(global, run.value.after)?;
        add_change(text, name.as_bytes(), was.as_bytes(), is.as_bytes())?;
    }
    Ok(())
}

/// The name of the pages of a range.
fn named(global: Global, label: Label, pages: PageRange) -> Result<String, AllocError>
    requires { pages.first.0 + pages.count ≤ 2 ^ 63 }
    ensures { IfOk result
        (λ name. string_bytes name
        ≡ pages_name (text_of_label label) pages.first.0
        (pages.first.0 + (pages.count - 1))) }
{
    let pages = Pages {
        label,
        first: pages.first.0,
        last: pages.first.0 + pages.count.saturating_sub(1),
    };
    format!(in global; "{pages}")
}

fn entry_text(global: Global, target: Option<Target>) -> Result<String, AllocError>
    ensures { IfOk result (λ text. string_bytes text ≡ text_of_target target) }
{
    let entry = match target {
        Some(target) => Entry::from(target),
        None => Entry::Unmapped,
    };
    format!(in global; "{entry}")
}

/// Adds the changes of the owner rows of frames. Both lists have a row for the same frames.
pub(crate) fn add_rows(
    text: &mut Vec<u8>,
    global: Global,
    before: &RunList<Row>,
    after: &RunList<Row>,
) -> Result<(), AllocError>
    requires frames { (f : ℕ)
        → is_some (run_map advance_row before.now.runs f)
        ≡ is_some (run_map advance_row after.now.runs f) }
    ensures { OnOk result
        (Adds
        (ReportsRows (row_in before.now.runs) (row_in after.now.runs)) text.old.items
        text.new.items) }
{
    let found = changes(global, before, after)?;
    add_row_runs(text, global, found.runs())?;
    Ok(())
}

/// A line for each run of frames whose rows changed.
fn add_row_runs(
    text: &mut Vec<u8>,
    global: Global,
    runs: &[Run<Change<Row>>],
) -> Result<(), AllocError>
    requires { AreInReach (CanBoth HasPageBelow) runs.now }
    ensures { OnOk result
        (text.new.items ≡ text.old.items ++ run_lines text_of_some_row (codes "owner") runs.now) }
{
    for run in runs {
        let name = named(global, Label::Owner, run.pages)?;
        let was = row_text(global, run.value.before)?;
        let is = row_text(global, run.value.after)?;
        add_change(text, name.as_bytes(), was.as_bytes(), is.as_bytes())?;
    }
    Ok(())
}

fn row_text(global: Global, row: Option<Row>) -> Result<String, AllocError>
    ensures { IfOk result (λ text. string_bytes text ≡ text_of_some_row row) }
{
    let row = match row {
        Some(row) => row,
        None => Row {
            owner: Owner(0),
            lent: None,
            usage: Usage::Plain,
        },
    };
    format!(in global; "{row}")
}
