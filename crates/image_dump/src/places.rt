//! Where things are in a picture, in pixels.
ghost use Rattle.std.specs.Prelude.{◌≡◌};
ghost use Rattle.image_dump.specs.Pictures.{
  at_left as pen_at_left,
  behind as pen_behind,
  behind_block,
  last as last_pen,
  placed as pen_placed,
  start,
  width_of as width_by,
};

use crate::line::DumpLine;

/// Where the next element goes, and the tree whose runs are drawn.
#[derive(Clone, Copy)]
pub struct Pen {
    pub tree: u64,
    pub x: u64,
    pub y: u64,
}

/// The right edge of a row.
const RIGHT: u64 = 972;

/// The width of a block, by the number of its pages.
pub(crate) fn width_of(count: u64) -> u64
    ensures { result ≡ width_by count }
{
    if count < 512 {
        15
    } else if count < 262_144 {
        30
    } else {
        60
    }
}

fn at_left(tree: u64, y: u64) -> Pen
    ensures { result ≡ pen_at_left tree y }
{
    Pen { tree, x: 12, y }
}

/// Where a block of this width goes: in the next row where this one has no room for it.
pub(crate) fn placed(pen: Pen, width: u64) -> Pen
    ensures { result ≡ pen_placed pen width }
{
    if pen.x.saturating_add(width) > RIGHT {
        at_left(pen.tree, pen.y.saturating_add(100))
    } else {
        pen
    }
}

fn behind_run(pen: Pen, width: u64) -> Pen
    ensures { result ≡ behind_block pen width }
{
    let at = placed(pen, width);
    Pen {
        x: at.x.saturating_add(width),
        ..at
    }
}

/// Where the first element of a report goes.
pub(crate) fn first() -> Pen
    ensures { result ≡ start }
{
    at_left(0, 50)
}

/// Where the element after those of a line goes.
pub(crate) fn behind(pen: Pen, line: &DumpLine) -> Pen
    ensures { result ≡ pen_behind pen line.now }
{
    match line {
        DumpLine::Tree { root, .. } => at_left(root.tree, pen.y.saturating_add(134)),
        DumpLine::Run(run) => behind_run(pen, width_of(run.pages.count)),
        DumpLine::Unwalked { .. } | DumpLine::Finding(_) | DumpLine::End { .. } => {
            at_left(pen.tree, pen.y.saturating_add(14))
        }
    }
}

/// Where all elements of a report end.
pub(crate) fn last(lines: &[DumpLine]) -> Pen
    ensures { result ≡ last_pen start lines.now }
{
    let mut pen = first();
    for i in 0..lines.len() {
        pen = behind(pen, &lines[i]);
    }
    pen
}
