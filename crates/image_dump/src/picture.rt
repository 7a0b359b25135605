//! The report as a picture.
ghost use Rattle.std.specs.Prelude.{◌≡◌, ◌++◌, ◌∷◌, [], IfOk, OnOk, Some, string_bytes};
ghost use Rattle.std.specs.List.{filter_map, flat_map, list_any};
ghost use Rattle.image_dump.specs.Pictures.{
  area as area_by,
  block as block_by,
  block_at,
  entry as entry_by,
  finding_in as finding_of,
  findings_in as findings_of,
  head,
  head_by,
  is_claim,
  mark,
  names_run,
  others,
  owners,
  picture_of,
  plain,
  block_text,
  shown,
  shown_line,
  size_at as size_by,
  start,
  states,
  text_before,
  text_of_ground,
  text_of_shown,
  title,
};
ghost use Rattle.image_dump.specs.Pictures.Shown.{Above};
ghost use Rattle.image_dump.specs.Looks.{look as look_by};
ghost use Rattle.page_state.specs.Texts.{text_of_page};
ghost use Rattle.image_dump.specs.declared.line.DumpLine.TheVariants.{Run as RunOf};

use crate::collect::add;
use crate::line::DumpLine;
use crate::looks::{Look, look_of, owned};
use crate::places::{Pen, behind, first, last, placed, width_of};
use image_findings::{Claim, Finding};
use run_list::Run;
use std::alloc::{AllocError, Global};
use std::fmt;
use svg_elements::{
    Area, Colour, Head, Paint, Rectangle, Size, Style, opening, write_filled, write_patterns,
    write_titled, write_words,
};
use walked_tables::Said;

/// Whether a claim is that of a tree's run from a page on; the host makes those that name an owner.
fn is_claim_of(tree: u64, page: u64, claim: &Claim) -> bool
    ensures { result ≡ is_claim tree page claim.now }
{
    let by = if claim.named { 0 } else { claim.tree };
    by == tree && claim.page == page
}

/// Whether a finding names a tree's run from a page on.
fn names(tree: u64, page: u64, finding: &Finding) -> bool
    ensures { result ≡ names_run tree page finding.now }
{
    match finding {
        Finding::Malformed {
            tree: other,
            page: first,
            ..
        }
        | Finding::NoTable {
            tree: other,
            page: first,
            ..
        } => *other == tree && *first == page,
        Finding::TwoOwners { first, second, .. } | Finding::TwoBorrowers { first, second, .. } => {
            is_claim_of(tree, page, first) || is_claim_of(tree, page, second)
        }
        Finding::NoBorrower { claim, .. }
        | Finding::Unshared { claim, .. }
        | Finding::Denied { claim, .. }
        | Finding::MappedTable { claim, .. } => is_claim_of(tree, page, claim),
        Finding::MetTwice { .. } => false,
    }
}

/// Whether some finding does.
fn is_named(findings: &[Finding], tree: u64, page: u64) -> bool
    ensures { result ≡ list_any (names_run tree page) findings.now }
{
    findings.iter().any(|finding| names(tree, page, finding))
}

/// The finding that a line tells.
fn finding_in(line: DumpLine) -> Option<Finding>
    ensures { result ≡ finding_of line }
{
    match line {
        DumpLine::Finding(finding) => Some(finding),
        DumpLine::Tree { .. }
        | DumpLine::Run(_)
        | DumpLine::Unwalked { .. }
        | DumpLine::End { .. } => None,
    }
}

/// The findings of a report.
fn findings_in(alloc: Global, lines: &[DumpLine]) -> Result<Vec<Finding>, AllocError>
    ensures { IfOk result (λ found. found.items ≡ findings_of lines.now) }
{
    let mut found = Vec::new(alloc);
    for i in 0..lines.len() {
        add(&mut found, finding_in(lines[i]))?;
    }
    Ok(found)
}

fn area(x: u64, y: u64, width: u64, height: u64) -> Area
    ensures { result ≡ area_by x y width height }
{
    Area {
        x,
        y,
        width,
        height,
    }
}

fn write_plain(svg: &mut String, area: Area, colour: Colour) -> Result<(), AllocError>
    ensures { OnOk result
        (string_bytes svg.new ≡ string_bytes svg.old ++ text_of_shown (plain area colour)) }
{
    let paint = Paint::Plain(colour);
    write_filled(svg, Rectangle { area, paint })
}

fn write_at(svg: &mut String, x: u64, y: u64, style: Style, text: &[u8]) -> Result<(), AllocError>
    ensures { OnOk result
        (string_bytes svg.new ≡ string_bytes svg.old ++ text_of_shown (Above (head x y style) text.now)) }
{
    write_words(svg, Head { x, y, style }, text)
}

/// Writes a block of a colour, and over it the paint that tells its line.
fn write_block(svg: &mut String, area: Area, look: Look, text: &[u8]) -> Result<(), AllocError>
    ensures { OnOk result
        (string_bytes svg.new
        ≡ string_bytes svg.old ++ flat_map text_of_shown (block_by area look text.now)) }
{
    write_plain(svg, area, look.base)?;
    let paint = look.paint;
    write_titled(svg, Rectangle { area, paint }, text)
}

/// Writes a red bar below a block, where one is to be.
fn write_mark(svg: &mut String, is_named: bool, pen: Pen, width: u64) -> Result<(), AllocError>
    ensures { OnOk result
        (string_bytes svg.new
        ≡ string_bytes svg.old ++ flat_map text_of_shown (mark is_named pen width)) }
{
    if !is_named {
        return Ok(());
    }
    let bar = area(pen.x, pen.y.saturating_add(28), width.saturating_sub(1), 6);
    write_plain(svg, bar, Colour::Red)
}

/// Writes the block of a run, with its line, and its first page over it.
fn write_run_block(
    svg: &mut String,
    at: Pen,
    width: u64,
    look: Look,
    line: &[u8],
    page: &[u8],
) -> Result<(), AllocError>
    ensures { OnOk result
        (string_bytes svg.new ≡ string_bytes svg.old ++ block_text at width look line.now page.now) }
{
    let place = area(at.x, at.y, width.saturating_sub(1), 26);
    write_block(svg, place, look, line)?;
    let (x, y) = (at.x.saturating_add(5), at.y.saturating_sub(6));
    write_at(svg, x, y, Style::Edge, page)
}

/// The number of a page.
#[derive(Clone, Copy)]
struct PageText(u64);

impl fmt::Display for PageText {
    ghost output = { λ page. Some (text_of_page page.0) };

    fn fmt<W: fmt::Write>(&self, f: &mut fmt::Formatter<W>) -> fmt::Result {
        let page = self.0;
        write!(f, "0x{page:x}")
    }
}

/// Writes the elements of a run at a place.
fn write_run_at(
    alloc: Global,
    findings: &[Finding],
    at: Pen,
    width: u64,
    run: Run<Said>,
    svg: &mut String,
) -> Result<(), AllocError>
    ensures { OnOk result
        (string_bytes svg.new
        ≡ string_bytes svg.old ++ flat_map text_of_shown (block_at findings.now at width run)) }
{
    let told = DumpLine::Run(run);
    let line = format!(in alloc; "{told}")?;
    let first = PageText(run.pages.first.0);
    let page = format!(in alloc; "{first}")?;
    let look = look_of(at.tree, run.value.0);
    write_run_block(svg, at, width, look, line.as_bytes(), page.as_bytes())?;
    let bad = is_named(findings, at.tree, run.pages.first.0);
    write_mark(svg, bad, at, width)
}

/// Writes the elements of a run.
fn write_run(
    alloc: Global,
    findings: &[Finding],
    pen: Pen,
    run: Run<Said>,
    svg: &mut String,
) -> Result<(), AllocError>
    ensures { OnOk result
        (string_bytes svg.new
        ≡ string_bytes svg.old
        ++ flat_map text_of_shown (shown_line findings.now pen (RunOf run))) }
{
    let width = width_of(run.pages.count);
    let at = placed(pen, width);
    write_run_at(alloc, findings, at, width, run, svg)
}

/// Where the text of a line that is no run's begins, and how it is set.
fn head_of(pen: Pen, line: &DumpLine) -> Head
    ensures { result ≡ head_by pen line.now }
{
    match line {
        DumpLine::Tree { .. } => Head {
            x: 12,
            y: pen.y.saturating_add(60),
            style: Style::Label,
        },
        DumpLine::End { .. } => Head {
            x: 12,
            y: pen.y.saturating_add(56),
            style: Style::Label,
        },
        DumpLine::Run(_) | DumpLine::Unwalked { .. } | DumpLine::Finding(_) => Head {
            x: 12,
            y: pen.y.saturating_add(56),
            style: Style::Refused,
        },
    }
}

/// Writes the elements of a line.
fn write_line(
    alloc: Global,
    findings: &[Finding],
    pen: Pen,
    line: DumpLine,
    svg: &mut String,
) -> Result<(), AllocError>
    ensures { OnOk result
        (string_bytes svg.new
        ≡ string_bytes svg.old ++ flat_map text_of_shown (shown_line findings.now pen line)) }
{
    if let DumpLine::Run(run) = line {
        return write_run(alloc, findings, pen, run, svg);
    }
    let text = format!(in alloc; "{line}")?;
    write_words(svg, head_of(pen, &line), text.as_bytes())
}

/// Writes the elements of lines.
fn write_shown(
    alloc: Global,
    findings: &[Finding],
    lines: &[DumpLine],
    svg: &mut String,
) -> Result<(), AllocError>
    ensures { OnOk result
        (string_bytes svg.new
        ≡ string_bytes svg.old ++ flat_map text_of_shown (shown findings.now start lines.now)) }
{
    let mut pen = first();
    for i in 0..lines.len() {
        write_line(alloc, findings, pen, lines[i], svg)?;
        pen = behind(pen, &lines[i]);
    }
    Ok(())
}

/// Writes an entry of the legend.
fn write_entry(svg: &mut String, x: u64, y: u64, look: Look, text: &[u8]) -> Result<(), AllocError>
    ensures { OnOk result
        (string_bytes svg.new ≡ string_bytes svg.old ++ entry_by x y look text.now) }
{
    write_block(svg, area(x, y, 26, 13), look, text)?;
    let (right, line) = (x.saturating_add(32), y.saturating_add(11));
    write_at(svg, right, line, Style::Label, text)
}

/// Writes the title.
#[tactic(auto, unfolding(crate::specs::Pictures::title))]
fn write_title(svg: &mut String) -> Result<(), AllocError>
    ensures { OnOk result (string_bytes svg.new ≡ string_bytes svg.old ++ title) }
{
    write_at(svg, 12, 22, Style::Title, b"Who owns what")
}

/// Writes whose pages are.
fn write_owners(svg: &mut String) -> Result<(), AllocError>
    ensures { OnOk result (string_bytes svg.new ≡ string_bytes svg.old ++ owners) }
{
    write_title(svg)?;
    write_entry(svg, 12, 34, owned(0), b"host")?;
    write_entry(svg, 110, 34, owned(1), b"hypervisor")?;
    write_entry(svg, 250, 34, owned(2), b"guest 0, and so on")
}

fn over(base: Colour, paint: Paint) -> Look
    ensures { result ≡ look_by base paint }
{
    Look { base, paint }
}

/// Writes the states of pages.
fn write_states(svg: &mut String) -> Result<(), AllocError>
    ensures { OnOk result (string_bytes svg.new ≡ string_bytes svg.old ++ states) }
{
    let shared = over(Colour::Ice, Paint::Lines(Colour::Black));
    write_entry(svg, 440, 34, shared, b"shared, in black")?;
    let borrowed = over(Colour::Pale, Paint::Lines(Colour::Orange));
    write_entry(svg, 590, 34, borrowed, b"borrowed, in its tree's colour")?;
    let unknown = over(Colour::Pale, Paint::Dots(Colour::Orange));
    write_entry(svg, 820, 34, unknown, b"no known state")?;
    let guest = over(Colour::Pale, Paint::Bars(Colour::Black));
    write_entry(svg, 12, 54, guest, b"a guest's, by its handle")
}

/// Writes all else of the legend.
fn write_others(svg: &mut String) -> Result<(), AllocError>
    ensures { OnOk result (string_bytes svg.new ≡ string_bytes svg.old ++ others) }
{
    let nobody = over(Colour::Pale, Paint::Dots(Colour::Black));
    write_entry(svg, 250, 54, nobody, b"nobody's")?;
    let nothing = over(Colour::White, Paint::Bars(Colour::Red));
    write_entry(svg, 370, 54, nothing, b"words that say nothing")?;
    let unsound = over(Colour::Red, Paint::Plain(Colour::Red));
    write_entry(svg, 590, 54, unsound, b"under what is unsound")
}

/// The colours that have patterns.
const COLOURS: [Colour; 12] = [
    Colour::Black,
    Colour::Red,
    Colour::Ice,
    Colour::Orange,
    Colour::Green,
    Colour::Pink,
    Colour::Violet,
    Colour::Teal,
    Colour::Crimson,
    Colour::Lime,
    Colour::Purple,
    Colour::Brown,
];

/// Writes a white area, and the legend over it.
fn write_ground(svg: &mut String, size: Size) -> Result<(), AllocError>
    ensures { OnOk result (string_bytes svg.new ≡ string_bytes svg.old ++ text_of_ground size) }
{
    write_plain(svg, area(0, 0, size.width, size.height), Colour::White)?;
    write_owners(svg)?;
    write_states(svg)?;
    write_others(svg)
}

/// What comes before the elements of the report.
#[tactic(auto, unfolding(crate::specs::Pictures::colours))]
fn begun(alloc: Global, size: Size) -> Result<String, AllocError>
    ensures { IfOk result (λ svg. string_bytes svg ≡ text_before size) }
{
    let mut svg = opening(alloc, size)?;
    write_patterns(&mut svg, COLOURS.as_slice())?;
    write_ground(&mut svg, size)?;
    Ok(svg)
}

fn size_at(pen: Pen) -> Size
    ensures { result ≡ size_by pen }
{
    Size {
        width: 984,
        height: pen.y.saturating_add(100),
    }
}

/// The picture of a report: a row for each tree, in which each run is a block, with a red bar under those that findings name, and
/// then the findings.
pub(crate) fn picture(alloc: Global, lines: &[DumpLine]) -> Result<String, AllocError>
    ensures { IfOk result (λ svg. string_bytes svg ≡ picture_of lines.now) }
{
    let findings = findings_in(alloc, lines)?;
    let mut svg = begun(alloc, size_at(last(lines)))?;
    write_shown(alloc, findings.as_slice(), lines, &mut svg)?;
    svg.push_str("</svg>\n")?;
    Ok(svg)
}
