//! The dump.
ghost use Rattle.std.specs.Prelude.{◌≡◌, ◌≤◌, ◌<◌, ◌^◌, [], ◌∷◌, All, IfErr, IfOk, OnOk, Ok, Err, length};
ghost use Rattle.std.specs.List.{list_all};
ghost use Rattle.std.specs.Io.KnownBytes.{Appends};
ghost use Rattle.memory_image.specs.CoreFile.{IsPlaced};
ghost use Rattle.std.specs.Option.{ForSome};
ghost use Rattle.std.specs.Option.{is_some};
ghost use Rattle.image_trees.specs.Records.{CanRead};
ghost use Rattle.image_dump.specs.Dumped.{outcome_of, gives_states, text_by, text_of_lines, AreCollected, IsAdded, IsDumped, IsFault, IsRoot};
ghost use Rattle.image_dump.specs.Pictures.{picture_of};

use crate::collect::{Collected, add_findings, add_line, add_tree, add_unsound};
use crate::line::DumpLine;
use crate::picture::picture;
use crate::records::{denied_findings, records_of, reported_root, reported_runs};
use crate::skip::{Skip, left_runs};
use image_trees::{Records, Root, Tree, Unwalked, walk_tree};
use memory_image::{ImageBytes, Refused, Segment};
use std::alloc::{AllocError, Global};
use std::io::Write;

/// How a report is written.
#[derive(Clone, Copy, PartialEq, Eq, Debug)]
pub enum Shape {
    /// As lines.
    Lines,
    /// As a picture (SVG).
    Picture,
}

/// How a dump ends.
#[derive(Clone, Copy, PartialEq, Eq, Debug)]
pub enum Dumped {
    /// Nothing is named.
    Sound,
    /// Something is.
    Unsound,
}

/// Why there is no dump.
#[derive(Clone, Copy, PartialEq, Eq, Debug)]
pub enum NotDumped {
    /// The image is refused.
    Refused(Refused),
    /// The report could not be written.
    Unwritten,
}

impl From<Refused> for NotDumped {
    ghost use Rattle.image_dump.specs.declared.dump.NotDumped.TheVariants.{Refused};

    ghost from_gives = { λ refused fault. fault ≡ Refused refused };

    fn from(refused: Refused) -> NotDumped {
        NotDumped::Refused(refused)
    }
}

impl From<AllocError> for NotDumped {
    ghost use Rattle.image_dump.specs.declared.dump.NotDumped.TheVariants.{Refused};
    ghost use Rattle.memory_image.specs.declared.refused.Refused.TheVariants.{NoMemory};

    ghost from_gives = { λ _ fault. fault ≡ Refused NoMemory };

    fn from(_error: AllocError) -> NotDumped {
        NotDumped::Refused(Refused::NoMemory)
    }
}

/// Whether words or records say the states of all trees.
fn all_say_states(has_records: bool, roots: &[Root]) -> bool
    ensures { result ≡ list_all (gives_states has_records) roots.now }
{
    roots.iter().all(|root| reported_root(has_records, *root).profile.has_states)
}

/// Adds the trees found from a root.
fn add_root<I: ImageBytes>(
    alloc: Global,
    image: &I,
    segments: &[Segment],
    records: &Option<Records>,
    root: Root,
    skips: &[Skip],
    all: &mut Collected,
) -> Result<u64, NotDumped>
    requires placed { All IsPlaced segments.now }
    requires records { ForSome records.now CanRead }
    requires root { IsRoot root }
    ensures added { IfOk result
        (IsAdded (I.bytes image.now)
        (I.may_fail image.now) segments.now records.now root skips.now all.old all.new) }
    ensures fault { IfErr result (IsFault (I.may_fail image.now)) }
{
    match walk_tree(alloc, image, segments, &root) {
        Ok(Tree { runs, tables }) => {
            let runs = reported_runs(alloc, image, segments, records, &root, runs)?;
            let told = reported_root(records.is_some(), root);
            let left = left_runs(alloc, skips, told.tree, runs.as_slice())?;
            let denied = denied_findings(alloc, image, segments, records, &root, left.as_slice())?;
            add_tree(
                alloc,
                told,
                &Tree { runs, tables },
                skips,
                denied.as_slice(),
                all,
            )?;
            Ok(0)
        }
        Err(Unwalked::Failed(refused)) => Err(NotDumped::Refused(refused)),
        Err(why) => {
            let tree = root.tree;
            add_line(&mut all.lines, DumpLine::Unwalked { tree, why })?;
            Ok(1)
        }
    }
}

/// Why a line isn't written.
#[derive(Clone, Copy, PartialEq, Eq)]
enum WriteFault {
    /// The writer failed.
    Unwritten,
    /// Memory was refused.
    NoMemory,
}

impl From<AllocError> for WriteFault {
    ghost use Rattle.image_dump.specs.declared.dump.WriteFault.TheVariants.{NoMemory};

    ghost from_gives = { λ _ fault. fault ≡ NoMemory };

    fn from(_error: AllocError) -> WriteFault {
        WriteFault::NoMemory
    }
}

/// Writes a line.
fn write_line<W: Write>(alloc: Global, line: DumpLine, writer: &mut W) -> Result<(), WriteFault>
    ensures { OnOk result
        (Appends (W.contents writer.old) (W.contents writer.new) (text_of_lines (line ∷ []))) }
{
    let text = format!(in alloc; "{line}\n")?;
    match writer.write_all(text.as_bytes()) {
        Ok(()) => Ok(()),
        Err(_) => Err(WriteFault::Unwritten),
    }
}

/// Writes lines.
fn write_lines<W: Write>(
    alloc: Global,
    lines: &[DumpLine],
    writer: &mut W,
) -> Result<(), WriteFault>
    ensures { OnOk result
        (Appends (W.contents writer.old) (W.contents writer.new) (text_of_lines lines.now)) }
{
    for i in 0..lines.len() {
        write_line(alloc, lines[i], writer)?;
    }
    Ok(())
}

/// Writes the picture of lines.
fn write_picture<W: Write>(
    alloc: Global,
    lines: &[DumpLine],
    writer: &mut W,
) -> Result<(), WriteFault>
    ensures { OnOk result
        (Appends (W.contents writer.old) (W.contents writer.new) (picture_of lines.now)) }
{
    let svg = picture(alloc, lines)?;
    match writer.write_all(svg.as_bytes()) {
        Ok(()) => Ok(()),
        Err(_) => Err(WriteFault::Unwritten),
    }
}

/// Writes lines in a shape.
fn write_shaped<W: Write>(
    alloc: Global,
    shape: Shape,
    lines: &[DumpLine],
    writer: &mut W,
) -> Result<(), WriteFault>
    ensures { OnOk result
        (Appends (W.contents writer.old) (W.contents writer.new) (text_by shape lines.now)) }
{
    match shape {
        Shape::Lines => write_lines(alloc, lines, writer),
        Shape::Picture => write_picture(alloc, lines, writer),
    }
}

/// Finds what the roots have.
fn collect<I: ImageBytes>(
    alloc: Global,
    image: &I,
    segments: &[Segment],
    records: &Option<Records>,
    roots: &[Root],
    skips: &[Skip],
    all: &mut Collected,
) -> Result<u64, NotDumped>
    requires placed { All IsPlaced segments.now }
    requires records { ForSome records.now CanRead }
    requires roots { All IsRoot roots.now }
    requires few { length roots.now < 2 ^ 32 }
    ensures collected { IfOk result
        (AreCollected (I.bytes image.now)
        (I.may_fail image.now) segments.now records.now roots.now skips.now all.old all.new) }
    ensures few { IfOk result (λ n. n ≤ length roots.now) }
    ensures fault { IfErr result (IsFault (I.may_fail image.now)) }
{
    let mut unwalked = 0u64;
    for i in 0..roots.len() {
        unwalked += add_root(alloc, image, segments, records, roots[i], skips, all)?;
    }
    Ok(unwalked)
}

/// The end of a dump in which this number of lines name something unsound.
fn outcome(findings: u64) -> Dumped
    ensures { result ≡ outcome_of findings }
{
    if findings == 0 {
        Dumped::Sound
    } else {
        Dumped::Unsound
    }
}

/// Dumps the trees of an image: a line for each tree and each of its runs, then what isn't sound, and an end line; or a
/// picture of these lines. With `vmemmap`, the hypervisor's page from which on it maps a record for each frame, the
/// states of its tree and the host's are those that the records say, if words say none.
pub fn dump_trees<I: ImageBytes, W: Write>(
    alloc: Global,
    image: &I,
    segments: &[Segment],
    roots: &[Root],
    vmemmap: Option<u64>,
    skips: &[Skip],
    shape: Shape,
    writer: &mut W,
) -> Result<Dumped, NotDumped>
    requires placed { All IsPlaced segments.now }
    requires roots { All IsRoot roots.now }
    requires few { length roots.now < 2 ^ 32 }
    ensures dumped { IfOk result
        (IsDumped (I.bytes image.now) (I.may_fail image.now) segments.now roots.now vmemmap skips.now shape
        (W.contents writer.old) (W.contents writer.new)) }
    ensures fault { IfErr result (IsFault (I.may_fail image.now)) }
{
    let mut all = Collected {
        lines: Vec::new(alloc),
        words: Vec::new(alloc),
        claims: Vec::new(alloc),
        tables: Vec::new(alloc),
    };
    let records = records_of(alloc, image, segments, roots, vmemmap)?;
    let unwalked = collect(alloc, image, segments, &records, roots, skips, &mut all)?;
    let states = all_say_states(records.is_some(), roots);
    let Collected {
        mut lines,
        mut words,
        claims,
        tables,
    } = all;
    add_unsound(states, claims.as_slice(), tables.as_slice(), &mut words)?;
    add_findings(words.as_slice(), &mut lines)?;
    let findings = unwalked + words.len() as u64;
    let trees = roots.len() as u64;
    add_line(&mut lines, DumpLine::End { trees, findings })?;
    match write_shaped(alloc, shape, lines.as_slice(), writer) {
        Ok(()) => Ok(outcome(findings)),
        Err(WriteFault::Unwritten) => Err(NotDumped::Unwritten),
        Err(WriteFault::NoMemory) => Err(NotDumped::Refused(Refused::NoMemory)),
    }
}
