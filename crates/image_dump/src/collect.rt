//! What the trees of a dump come to.
ghost use Rattle.std.specs.Prelude.{◌≡◌, ◌++◌, [], ◌∷◌, OnOk, IfOk, map, length, option_to_list};
ghost use Rattle.std.specs.List.{filter_map};
ghost use Rattle.image_findings.specs.Claims.{claim_of};
ghost use Rattle.image_findings.specs.Findings.{bad_word};
ghost use Rattle.image_dump.specs.declared.line.DumpLine.TheVariants.{Run as RunOf, Finding as FindingOf};
ghost use Rattle.image_dump.specs.Collecting.{Grows, found_of, findings_by, halves_of};

use crate::line::DumpLine;
use crate::skip::{Skip, left_runs};
use image_findings::{
    Claim, Finding, add_claims, add_clashes, add_mapped, add_met_twice, add_unborrowed,
    add_unshared, add_words,
};
use image_trees::{Root, Tree, Unwalked};
use run_list::Run;
use std::alloc::{AllocError, Global};
use walked_tables::{Reached, Said};

/// The trees given so far, and the frames that they claim.
#[derive(Drop)]
pub(crate) struct Collected {
    pub lines: Vec<DumpLine>,
    pub words: Vec<Finding>,
    pub claims: Vec<Claim>,
    pub tables: Vec<Reached>,
}

/// Adds a line.
pub(crate) fn add_line(lines: &mut Vec<DumpLine>, line: DumpLine) -> Result<(), AllocError>
    ensures { OnOk result (lines.new.items ≡ lines.old.items ++ line ∷ []) }
{
    lines.push(line)?;
    Ok(())
}

/// Adds a line for each run.
fn add_runs(runs: &[Run<Said>], lines: &mut Vec<DumpLine>) -> Result<(), AllocError>
    ensures { OnOk result (lines.new.items ≡ lines.old.items ++ map (λ run. RunOf run) runs.now) }
{
    for i in 0..runs.len() {
        add_line(lines, DumpLine::Run(runs[i]))?;
    }
    Ok(())
}

/// Adds a line for each finding.
pub(crate) fn add_findings(
    findings: &[Finding],
    lines: &mut Vec<DumpLine>,
) -> Result<(), AllocError>
    ensures { OnOk result
        (lines.new.items ≡ lines.old.items ++ map (λ finding. FindingOf finding) findings.now) }
{
    for i in 0..findings.len() {
        add_line(lines, DumpLine::Finding(findings[i]))?;
    }
    Ok(())
}

/// Adds the findings on the words of a tree, and those that its leaves are denied.
fn add_bad(
    tree: u64,
    runs: &[Run<Said>],
    denied: &[Finding],
    words: &mut Vec<Finding>,
) -> Result<(), AllocError>
    ensures { OnOk result
        (words.new.items ≡ words.old.items ++ (filter_map (bad_word tree) runs.now ++ denied.now)) }
{
    add_words(tree, runs, words)?;
    words.extend_from_slice(denied)?;
    Ok(())
}

/// Adds a tree, and the findings that its leaves are denied.
pub(crate) fn add_tree(
    alloc: Global,
    root: Root,
    tree: &Tree,
    skips: &[Skip],
    denied: &[Finding],
    all: &mut Collected,
) -> Result<(), AllocError>
    ensures { OnOk result (Grows skips.now (found_of root tree.now denied.now) all.old all.new) }
{
    let runs = left_runs(alloc, skips, root.tree, tree.runs.as_slice())?;
    let tables = tree.tables.len() as u64;
    add_line(&mut all.lines, DumpLine::Tree { root, tables })?;
    add_runs(runs.as_slice(), &mut all.lines)?;
    add_bad(root.tree, runs.as_slice(), denied, &mut all.words)?;
    add_claims(root.tree, runs.as_slice(), &mut all.claims)?;
    all.tables.extend_from_slice(tree.tables.as_slice())?;
    Ok(())
}

/// Adds a finding, if there is one.
pub(crate) fn add(found: &mut Vec<Finding>, next: Option<Finding>) -> Result<(), AllocError>
    ensures { OnOk result (found.new.items ≡ found.old.items ++ option_to_list next) }
{
    if let Some(next) = next {
        found.push(next)?;
    }
    Ok(())
}

/// Adds shares of which one side is missing.
fn add_halves(claims: &[Claim], found: &mut Vec<Finding>) -> Result<(), AllocError>
    ensures { OnOk result (found.new.items ≡ found.old.items ++ halves_of claims.now) }
{
    add_unborrowed(claims, found)?;
    add_unshared(claims, found)?;
    Ok(())
}

/// Adds the findings after those of words. Whether shares have both sides is tested only if all words say states.
pub(crate) fn add_unsound(
    states: bool,
    claims: &[Claim],
    tables: &[Reached],
    found: &mut Vec<Finding>,
) -> Result<(), AllocError>
    ensures { OnOk result (found.new.items ≡ found.old.items ++ findings_by states claims.now tables.now) }
{
    add_clashes(claims, found)?;
    if states {
        add_halves(claims, found)?;
    }
    add_mapped(tables, claims, found)?;
    add_met_twice(tables, found)?;
    Ok(())
}
