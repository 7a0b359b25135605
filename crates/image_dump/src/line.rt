//! Lines of a report.
ghost use Rattle.std.specs.Prelude.{◌≡◌, Some};
ghost use Rattle.image_dump.specs.Texts.{text_of_states};

use crate::texts::{ClaimText, RunText, TreeName};
use image_findings::Finding;
use image_trees::{Root, Unwalked};
use run_list::Run;
use std::fmt;
use walked_tables::{Reached, Said};

/// A line of a report.
#[derive(Clone, Copy)]
pub enum DumpLine {
    /// A tree and the number of its tables; runs of its pages follow.
    Tree { root: Root, tables: u64 },
    /// A run of pages.
    Run(Run<Said>),
    /// A tree that isn't walked.
    Unwalked { tree: u64, why: Unwalked },
    /// What isn't sound.
    Finding(Finding),
    /// The end: how many trees there are, and how many lines name what isn't sound.
    End { trees: u64, findings: u64 },
}

/// The level of a table with as many levels below it.
#[derive(Clone, Copy)]
struct Level(u64);

impl fmt::Display for Level {
    ghost use Rattle.image_dump.specs.Texts.{text_of_level};

    ghost output = { λ level. Some (text_of_level level.0) };

    fn fmt<W: fmt::Write>(&self, f: &mut fmt::Formatter<W>) -> fmt::Result {
        if self.0 < 4 {
            let level = 3 - self.0;
            write!(f, "{level}")
        } else {
            f.write_str("-1")
        }
    }
}

/// A root: its tree, its place, and whether its words say states.
#[derive(Clone, Copy)]
struct RootText(Root);

impl fmt::Display for RootText {
    ghost use Rattle.image_dump.specs.Texts.{text_of_root};

    ghost output = { λ root. Some (text_of_root root.0) };

    fn fmt<W: fmt::Write>(&self, f: &mut fmt::Formatter<W>) -> fmt::Result {
        let tree = TreeName(self.0.tree);
        let frame = self.0.frame;
        let level = Level(self.0.depth as u64);
        let pages = self.0.count;
        write!(f, "{tree} root 0x{frame:x} level {level} pages {pages}")
    }
}

/// The place where a table was reached, as text.
#[derive(Clone, Copy)]
struct PlaceText(Reached);

impl fmt::Display for PlaceText {
    ghost use Rattle.image_dump.specs.Texts.{text_of_place};

    ghost output = { λ reached. Some (text_of_place reached.0) };

    fn fmt<W: fmt::Write>(&self, f: &mut fmt::Formatter<W>) -> fmt::Result {
        let level = Level(self.0.depth);
        let number = self.0.number;
        write!(f, "{level}:0x{number:x}")
    }
}

fn states_text(has_states: bool) -> &'static str
    ensures { result.now ≡ text_of_states has_states }
{
    if has_states { "" } else { " states unknown" }
}

/// Why a tree isn't walked.
#[derive(Clone, Copy)]
struct WhyText(Unwalked);

impl fmt::Display for WhyText {
    ghost use Rattle.image_dump.specs.Texts.{text_of_why};

    ghost output = { λ why. Some (text_of_why why.0) };

    fn fmt<W: fmt::Write>(&self, f: &mut fmt::Formatter<W>) -> fmt::Result {
        match self.0 {
            Unwalked::Rootless { frame } => write!(f, "no-root 0x{frame:x}"),
            Unwalked::Again { first, second } => {
                let frame = second.frame;
                let (first, second) = (PlaceText(first), PlaceText(second));
                write!(f, "table-met-twice 0x{frame:x} at {first} and {second}")
            }
            Unwalked::TooManyTables => f.write_str("too-many-tables"),
            Unwalked::Failed(_) => f.write_str("unreadable"),
        }
    }
}

/// What isn't sound.
#[derive(Clone, Copy)]
struct FindingText(Finding);

impl fmt::Display for FindingText {
    ghost use Rattle.image_dump.specs.Texts.{text_of_finding};

    ghost output = { λ finding. Some (text_of_finding finding.0) };

    fn fmt<W: fmt::Write>(&self, f: &mut fmt::Formatter<W>) -> fmt::Result {
        match self.0 {
            Finding::Malformed { tree, page, count } => {
                let tree = TreeName(tree);
                write!(f, "malformed {tree} 0x{page:x} 0x{count:x}")
            }
            Finding::NoTable {
                tree,
                page,
                count,
                frame,
            } => {
                let tree = TreeName(tree);
                write!(
                    f,
                    "no-table {tree} 0x{page:x} 0x{count:x} frame 0x{frame:x}"
                )
            }
            Finding::TwoOwners {
                frame,
                first,
                second,
            } => {
                let (first, second) = (ClaimText(first), ClaimText(second));
                write!(f, "two-owners 0x{frame:x} {first} and {second}")
            }
            Finding::TwoBorrowers {
                frame,
                first,
                second,
            } => {
                let (first, second) = (ClaimText(first), ClaimText(second));
                write!(f, "two-borrowers 0x{frame:x} {first} and {second}")
            }
            Finding::NoBorrower { frame, claim } => {
                let claim = ClaimText(claim);
                write!(f, "no-borrower 0x{frame:x} {claim}")
            }
            Finding::Unshared { frame, claim } => {
                let claim = ClaimText(claim);
                write!(f, "unshared 0x{frame:x} {claim}")
            }
            Finding::Denied { frame, claim } => {
                let claim = ClaimText(claim);
                write!(f, "denied 0x{frame:x} {claim}")
            }
            Finding::MappedTable { table, claim } => {
                let (tree, claim) = (TreeName(table.tree), ClaimText(claim));
                let frame = table.frame;
                write!(f, "mapped-table 0x{frame:x} of {tree} {claim}")
            }
            Finding::MetTwice { first, second } => {
                let frame = first.frame;
                let (first, second) = (TreeName(first.tree), TreeName(second.tree));
                write!(f, "table-of-two 0x{frame:x} {first} and {second}")
            }
        }
    }
}

impl fmt::Display for DumpLine {
    ghost use Rattle.image_dump.specs.Texts.{text_of_line};

    ghost output = { λ line. Some (text_of_line line) };

    fn fmt<W: fmt::Write>(&self, f: &mut fmt::Formatter<W>) -> fmt::Result {
        match *self {
            DumpLine::Tree { root, tables } => {
                let states = states_text(root.profile.has_states);
                let root = RootText(root);
                write!(f, "tree {root} tables {tables}{states}")
            }
            DumpLine::Run(run) => {
                let run = RunText(run);
                write!(f, "{run}")
            }
            DumpLine::Unwalked { tree, why } => {
                let (tree, why) = (TreeName(tree), WhyText(why));
                write!(f, "finding {tree} {why}")
            }
            DumpLine::Finding(finding) => {
                let finding = FindingText(finding);
                write!(f, "finding {finding}")
            }
            DumpLine::End { trees, findings } => {
                write!(f, "end trees {trees} findings {findings}")
            }
        }
    }
}
