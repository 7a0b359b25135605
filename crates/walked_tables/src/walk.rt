//! The walk of a tree.
ghost use Rattle.std.specs.Prelude.{◌≡◌, ◌+◌, ◌*◌, ◌^◌, ◌<◌, ◌≤◌, ◌++◌, All, AllPairs, IfErr, IfOk, OnOk, length};
ghost use Rattle.page_state.specs.Geometries.{block_pages};
ghost use Rattle.run_list.specs.Runs.{EndBefore};
ghost use Rattle.run_list.specs.View.{IsKept};
ghost use Rattle.walked_tables.specs.Values.{advance_said, CanGoOn};
ghost use Rattle.walked_tables.specs.ByFrames.{IsWhole, most_pages, table_pages, tables_by_frames, tables_under};
ghost use Rattle.walked_tables.specs.Reached.{AreOtherFrames, IsStopped};
ghost use Rattle.walked_tables.specs.Walks.{IsTableWalked, IsTreeWalked};

use crate::follow::{TablePage, next_page, slots_in, value_at, word_pages};
use crate::reached::{Reached, Stopped, reach};
use crate::runs::put;
use crate::said::Said;
use run_list::Run;
use std::alloc::Global;
use table_words::Profile;

/// Walks a table at block `number` of the blocks of its level, which has `depth` levels below it, and all that its words lead
/// on to. Each table is added to those that were met, and what each page has to the runs.
fn walk_table(
    profile: &Profile,
    pages: &[TablePage<'_>],
    tree: u64,
    depth: u32,
    number: u64,
    page: TablePage<'_>,
    met: &mut Vec<Reached>,
    runs: &mut Vec<Run<Said>>,
) -> Result<(), Stopped>
    requires depth_in { depth ≤ 4 }
    requires whole { All IsWhole pages.now }
    requires page { IsWhole page }
    requires place { number * block_pages (depth + 1) + table_pages depth ≤ 2 ^ 40 }
    requires kept { IsKept advance_said CanGoOn runs.old.items }
    requires behind { EndBefore (number * block_pages (depth + 1) + 1) runs.old.items }
    requires apart { AllPairs AreOtherFrames met.old.items }
    ensures walked { OnOk result
        (IsTableWalked profile.now pages.now tree depth number page.entry met.old.items met.new.items runs.old.items runs.new.items) }
    ensures stopped { IfErr result
        (IsStopped
        (met.old.items ++ tables_under profile.now pages.now tree depth number page.entry)) }
{
    let table = Reached {
        tree,
        depth: depth as u64,
        number,
        frame: page.frame,
    };
    reach(met, table)?;
    let each = word_pages(depth);
    let slots = slots_in(depth);
    for i in 0..slots {
        let part = number * 512 + i as u64;
        let word = page.words[i];
        match next_page(profile, pages, depth, word) {
            Some(next) => walk_table(profile, pages, tree, depth - 1, part, next, met, runs)?,
            None => put(runs, part * each, each, value_at(profile, depth, word))?,
        }
    }
    Ok(())
}

/// Walks the tree of a root of `depth` levels below it: of one page, or of several that are concatenated, which `roots` has in
/// order. Its tables, each before those below it, are added to those that were met, of other trees too. Its runs are the coarsest
/// list of what each page has; a page that none holds has nothing.
pub fn walked(
    alloc: Global,
    profile: &Profile,
    pages: &[TablePage<'_>],
    tree: u64,
    depth: u32,
    roots: &[TablePage<'_>],
    met: &mut Vec<Reached>,
) -> Result<Vec<Run<Said>>, Stopped>
    requires depth_in { depth ≤ 4 }
    requires whole { All IsWhole pages.now }
    requires roots { All IsWhole roots.now }
    requires few { length roots.now ≤ most_pages depth }
    requires apart { AllPairs AreOtherFrames met.old.items }
    ensures walked { IfOk result
        (λ runs. IsTreeWalked profile.now pages.now tree depth roots.now met.old.items met.new.items runs.items) }
    ensures stopped { IfErr result
        (IsStopped
        (met.old.items ++ tables_by_frames profile.now pages.now tree depth roots.now)) }
{
    let mut runs = Vec::new(alloc);
    for k in 0..roots.len() {
        walk_table(
            profile, pages, tree, depth, k as u64, roots[k], met, &mut runs,
        )?;
    }
    Ok(runs)
}
