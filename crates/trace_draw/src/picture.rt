//! The picture.
ghost use Rattle.std.specs.Prelude.{◌≡◌, ◌∷◌, [], ◌++◌, IfOk, OnOk, length, string_bytes};
ghost use Rattle.trace_draw.specs.Pictures.{AreDrawn, AreEdges, IsDrawing, IsPicture, IsPiece, ShowsScenes, SpansColumn};

use crate::bands::Look;
use crate::cells::{Since, SlotCell, cells_of, slot_cells, used_slots};
use crate::columns::{Column, columns_of};
use crate::course::{Course, Ended, Moment, made};
use crate::places::{MARGIN, Places, TOP};
use call_table::{Reply, VmKind};
use page_state::Usage;
use std::alloc::{AllocError, Allocator, Global};
use svg_elements::{
    Area, Colour, Head, Item, Label, Paint, Rectangle, Size, Style, of_owner, of_slot, written,
};
use trace_reader::lines;
use trace_text::Session;
use vm_table::SlotState;

/// The number of a reply's bytes that are shown.
const MOST_REPLY: usize = 30;

/// The height of the part of a slot's cell that has its text.
const HEAD: u64 = 13;

/// A picture of a trace, and how the run of the trace ended.
#[derive(Drop)]
pub struct Drawing {
    pub svg: String,
    pub ended: Ended,
}

/// An SVG of who owns what: memory from left to right, steps from top to bottom. A fault of the trace ends it, and its
/// text is under the picture.
pub fn draw<A: Allocator + Copy>(
    global: Global,
    alloc: A,
    trace: &[u8],
) -> Result<Drawing, AllocError>
    ensures { IfOk result (λ d. IsDrawing trace.now d.ended (string_bytes d.svg)) }
{
    let lines = lines(global, trace)?;
    let mut session = Session::new(global, alloc);
    let course = made(global, &mut session, lines.as_slice());
    drop(session);
    let course = course?;
    let svg = picture_of(global, &course, lines.as_slice())?;
    Ok(Drawing {
        svg,
        ended: course.ended,
    })
}

/// The picture of a course.
fn picture_of(global: Global, course: &Course, lines: &[&[u8]]) -> Result<String, AllocError>
    ensures { IfOk result (λ svg. ShowsScenes course.now.scenes.items (string_bytes svg)) }
{
    let columns = columns_of(global, course.scenes.as_slice())?;
    picture_by(global, course, lines, columns.as_slice())
}

/// The picture of a course by these columns.
fn picture_by(
    global: Global,
    course: &Course,
    lines: &[&[u8]],
    columns: &[Column],
) -> Result<String, AllocError>
    ensures { IfOk result (λ svg. IsPicture columns.now (string_bytes svg)) }
{
    let slots = used_slots(global, course.scenes.as_slice())?;
    let rows = course.moments.len() as u64;
    let places = Places::of(global, rows, columns, slots.len())?;
    let mut ground = Vec::new(global);
    let size = add_ground(global, &mut ground, columns, slots.as_slice(), &places)?;
    let mut cells = Vec::new(global);
    add_cells(global, &mut cells, course, columns, &places)?;
    let mut over = Vec::new(global);
    add_over(global, &mut over, course, lines, slots.as_slice(), &places)?;
    written(
        global,
        size,
        ground.as_slice(),
        cells.as_slice(),
        over.as_slice(),
    )
}

/// Adds the elements below the cells, and answers the size.
fn add_ground(
    global: Global,
    items: &mut Vec<Item>,
    columns: &[Column],
    slots: &[u64],
    places: &Places,
) -> Result<Size, AllocError> {
    let size = open(items, places, slots.len() as u64)?;
    add_legend(global, items, slots)?;
    add_edges(global, items, columns, places)?;
    Ok(size)
}

/// Adds the elements over the cells.
fn add_over(
    global: Global,
    items: &mut Vec<Item>,
    course: &Course,
    lines: &[&[u8]],
    slots: &[u64],
    places: &Places,
) -> Result<(), AllocError> {
    add_rules(items, places)?;
    add_slots(global, items, course, slots, places)?;
    if places.has_texts {
        add_texts(global, items, course.moments.as_slice(), lines, places)?;
    }
    add_end(global, items, course.ended, places)
}

/// Adds the patterns and the ground, and answers the size.
fn open(items: &mut Vec<Item>, places: &Places, slots: u64) -> Result<Size, AllocError> {
    add_patterns(items, Colour::Black)?;
    add_patterns(items, Colour::White)?;
    add_patterns(items, Colour::Ice)?;
    add_patterns(items, Colour::Orange)?;
    for slot in 0..8 {
        add_patterns(items, of_slot(slot))?;
    }
    let size = Size {
        width: places.slot(slots).saturating_add(MARGIN).max(980),
        height: places.row(places.rows).saturating_add(40),
    };
    let ground = Area {
        x: 0,
        y: 0,
        width: size.width,
        height: size.height,
    };
    rectangle(items, ground, Paint::Plain(Colour::White))?;
    Ok(size)
}

fn add_patterns(items: &mut Vec<Item>, colour: Colour) -> Result<(), AllocError> {
    items.push(Item::Pattern(Paint::Lines(colour)))?;
    items.push(Item::Pattern(Paint::Dots(colour)))?;
    items.push(Item::Pattern(Paint::Bars(colour)))?;
    Ok(())
}

fn rectangle(items: &mut Vec<Item>, area: Area, paint: Paint) -> Result<(), AllocError>
    ensures { OnOk result
        (items.new.items
        ≡ items.old.items ++ Item.Rectangle (record { area = area; paint = paint }) ∷ []) }
{
    items.push(Item::Rectangle(Rectangle { area, paint }))?;
    Ok(())
}

fn text(
    items: &mut Vec<Item>,
    x: u64,
    y: u64,
    style: Style,
    bytes: &[u8],
) -> Result<(), AllocError> {
    let bytes = Vec::from_slice(*items.allocator(), bytes)?;
    let head = Head { x, y, style };
    items.push(Item::Text(Label { head, bytes }))?;
    Ok(())
}

/// The mark over the colour of the owner: of a loan, a pool or a hand.
fn mark_of(look: Look) -> Option<Paint> {
    if let Some(borrower) = look.borrower {
        return Some(Paint::Lines(of_owner(borrower)));
    }
    match look.usage {
        Usage::Plain => None,
        Usage::SharedPool => Some(Paint::Dots(Colour::White)),
        Usage::VmPool(slot) => Some(Paint::Bars(of_slot(slot))),
        Usage::InHand(_) => Some(Paint::Dots(Colour::Black)),
    }
}

/// A piece of memory that looks so: a rectangle in its owner's colour, and maybe one over it.
fn piece(items: &mut Vec<Item>, area: Area, look: Look) -> Result<(), AllocError>
    ensures { OnOk result (IsPiece area items.old.items items.new.items) }
{
    rectangle(items, area, Paint::Plain(of_owner(look.owner)))?;
    match mark_of(look) {
        Some(mark) => rectangle(items, area, mark),
        None => Ok(()),
    }
}

/// An entry of the legend.
fn entry(
    items: &mut Vec<Item>,
    x: u64,
    y: u64,
    look: Look,
    words: &[u8],
) -> Result<(), AllocError> {
    let area = Area {
        x,
        y,
        width: 26,
        height: 13,
    };
    piece(items, area, look)?;
    text(
        items,
        x.saturating_add(32),
        y.saturating_add(11),
        Style::Label,
        words,
    )
}

fn owned(owner: u64) -> Look {
    Look {
        owner,
        borrower: None,
        usage: Usage::Plain,
    }
}

fn add_legend(global: Global, items: &mut Vec<Item>, slots: &[u64]) -> Result<(), AllocError> {
    text(items, MARGIN, 22, Style::Title, b"Who owns what")?;
    entry(items, MARGIN, 34, owned(0), b"host")?;
    entry(items, 100, 34, owned(1), b"hypervisor")?;
    let used = Look {
        owner: 1,
        borrower: None,
        usage: Usage::SharedPool,
    };
    entry(items, 230, 34, used, b"shared pool")?;
    let hand = Look {
        owner: 1,
        borrower: None,
        usage: Usage::InHand(0),
    };
    entry(items, 370, 34, hand, b"hand of a CPU")?;
    let pool = Look {
        owner: 1,
        borrower: None,
        usage: Usage::VmPool(0),
    };
    entry(items, 520, 34, pool, b"pool of a guest, bars in its colour")?;
    let lent = Look {
        owner: 0,
        borrower: Some(1),
        usage: Usage::Plain,
    };
    entry(
        items,
        MARGIN,
        54,
        lent,
        b"lent: thin lines, \\ to the hypervisor, / to the host, | to a guest",
    )?;
    let mut x = 520;
    for slot in slots {
        let name = format!(in global; "guest {slot}")?;
        entry(items, x, 54, owned(slot.saturating_add(2)), name.as_bytes())?;
        x = x.saturating_add(98);
    }
    Ok(())
}

/// The frames at which columns begin, as far as there is room.
fn add_edges(
    global: Global,
    items: &mut Vec<Item>,
    columns: &[Column],
    places: &Places,
) -> Result<(), AllocError> {
    let mut free = 0;
    for (number, column) in columns.iter().enumerate() {
        let x = places.column(number);
        if x >= free {
            let first = column.first;
            let name = format!(in global; "{first:x}")?;
            text(
                items,
                x.saturating_add(5),
                TOP - 6,
                Style::Edge,
                name.as_bytes(),
            )?;
            free = x.saturating_add(11);
        }
    }
    text(
        items,
        places.left,
        TOP - 58,
        Style::Label,
        b"frames (hexadecimal)",
    )
}

/// Adds the pieces of memory: a column through rows in which it looks the same is one.
fn add_cells(
    global: Global,
    items: &mut Vec<Item>,
    course: &Course,
    columns: &[Column],
    places: &Places,
) -> Result<(), AllocError>
    requires { AreEdges (length columns.now) places.now.edges.items }
    ensures { OnOk result (AreDrawn items.new.items places.now.edges.items (length columns.now)) }
{
    let moments = course.moments.as_slice();
    let cells = cells_of(global, moments, course.scenes.as_slice(), columns)?;
    for cell in cells.ended.as_slice() {
        let area = area_of(places, cell.column, cell.from, cell.to);
        if area.height > 0 {
            piece(items, area, cell.look)?;
        }
    }
    add_last(items, cells.last.as_slice(), moments.len(), places)
}

/// Adds the last piece of each column, down to before a row.
fn add_last(
    items: &mut Vec<Item>,
    last: &[Since],
    to: usize,
    places: &Places,
) -> Result<(), AllocError>
    requires { AreEdges (length last.now) places.now.edges.items }
    ensures { OnOk result (AreDrawn items.new.items places.now.edges.items (length last.now)) }
{
    for (column, since) in last.iter().enumerate() {
        let area = area_of(places, column, since.from, to);
        piece(items, area, since.look)?;
    }
    Ok(())
}

/// Adds a thin line over each fifth row.
fn add_rules(items: &mut Vec<Item>, places: &Places) -> Result<(), AllocError> {
    for row in 0..places.rows {
        if places.has_texts && row % 5 == 0 {
            rule(items, places, row)?;
        }
    }
    Ok(())
}

/// A thin line over a row.
fn rule(items: &mut Vec<Item>, places: &Places, row: u64) -> Result<(), AllocError> {
    let area = Area {
        x: MARGIN,
        y: places.row(row),
        width: places.slots.saturating_sub(MARGIN + 24),
        height: 1,
    };
    rectangle(items, area, Paint::Plain(Colour::Pale))
}

/// The place of a column from a row on up to before another.
fn area_of(places: &Places, column: usize, from: usize, to: usize) -> Area
    ensures { SpansColumn places.now.edges.items column result }
{
    let x = places.column(column);
    let y = places.row(from as u64);
    Area {
        x,
        y,
        width: places
            .column(column.saturating_add(1))
            .saturating_sub(x)
            .saturating_sub(1),
        height: places.row(to as u64).saturating_sub(y),
    }
}

fn add_slots(
    global: Global,
    items: &mut Vec<Item>,
    course: &Course,
    slots: &[u64],
    places: &Places,
) -> Result<(), AllocError> {
    let moments = course.moments.as_slice();
    let scenes = course.scenes.as_slice();
    if !slots.is_empty() {
        text(items, places.slots, TOP - 58, Style::Label, b"VM slots")?;
    }
    let mut place = 0;
    for slot in slots {
        let name = format!(in global; "{slot}")?;
        text(
            items,
            places.slot(place),
            TOP - 6,
            Style::Label,
            name.as_bytes(),
        )?;
        let cells = slot_cells(global, moments, scenes, *slot)?;
        for cell in cells.as_slice() {
            slot_cell(global, items, *cell, places.slot(place), places)?;
        }
        place = place.saturating_add(1);
    }
    Ok(())
}

fn slot_cell(
    global: Global,
    items: &mut Vec<Item>,
    cell: SlotCell,
    x: u64,
    places: &Places,
) -> Result<(), AllocError> {
    let y = places.row(cell.from as u64);
    let area = Area {
        x,
        y,
        width: places.slot_width.saturating_sub(2),
        height: places.row(cell.to as u64).saturating_sub(y),
    };
    if area.height == 0 {
        return Ok(());
    }
    let colour = Paint::Plain(of_slot(cell.look.slot));
    rectangle(items, area, colour)?;
    if let Some(mark) = state_mark(cell.look.state) {
        rectangle(items, area, mark)?;
    }
    if !places.has_slot_texts || area.height < HEAD {
        return Ok(());
    }
    rectangle(
        items,
        Area {
            height: HEAD,
            ..area
        },
        colour,
    )?;
    let slot = cell.look.slot;
    let generation = cell.look.generation;
    let kind = kind_word(cell.look.kind);
    let state = state_word(cell.look.state);
    let words = format!(in global; "{slot}.{generation} {kind} {state}")?;
    text(
        items,
        x.saturating_add(3),
        places.line(cell.from as u64),
        Style::Slot,
        words.as_bytes(),
    )
}

/// The mark of a slot that isn't open.
fn state_mark(state: SlotState) -> Option<Paint> {
    match state {
        SlotState::Open => None,
        SlotState::Vacant => Some(Paint::Plain(Colour::Pale)),
        SlotState::Reserved | SlotState::Closing => Some(Paint::Lines(Colour::White)),
    }
}

fn kind_word(kind: VmKind) -> &'static str {
    match kind {
        VmKind::Protected => "prot",
        VmKind::Plain => "plain",
    }
}

fn state_word(state: SlotState) -> &'static str {
    match state {
        SlotState::Vacant => "empty",
        SlotState::Reserved => "booked",
        SlotState::Open => "open",
        SlotState::Closing => "closing",
    }
}

fn add_texts(
    global: Global,
    items: &mut Vec<Item>,
    moments: &[Moment],
    lines: &[&[u8]],
    places: &Places,
) -> Result<(), AllocError> {
    for (row, moment) in moments.iter().enumerate() {
        let y = places.line(row as u64);
        if let Some(line) = lines.get(moment.place) {
            line_text(global, items, moment.place, line, y)?;
        }
        if let Some(reply) = moment.reply {
            reply_text(global, items, reply, y)?;
        }
    }
    Ok(())
}

/// A line's number, and the line.
fn line_text(
    global: Global,
    items: &mut Vec<Item>,
    place: usize,
    line: &[u8],
    y: u64,
) -> Result<(), AllocError> {
    let number = place.saturating_add(1);
    let name = format!(in global; "{number:>4}")?;
    text(items, MARGIN, y, Style::Code, name.as_bytes())?;
    text(items, MARGIN + 32, y, Style::Code, line)
}

/// A step's reply, the first bytes of it.
fn reply_text(
    global: Global,
    items: &mut Vec<Item>,
    reply: Reply,
    y: u64,
) -> Result<(), AllocError> {
    let style = match reply {
        Reply::Done(_) => Style::Code,
        Reply::Refused(_) => Style::Refused,
    };
    let words = format!(in global; "{reply}")?;
    let bytes = words.as_bytes();
    let shown = &bytes[..bytes.len().min(MOST_REPLY)];
    text(items, MARGIN + 262, y, style, shown)
}

fn add_end(
    global: Global,
    items: &mut Vec<Item>,
    ended: Ended,
    places: &Places,
) -> Result<(), AllocError> {
    let Ended::Fault { line, fault } = ended else {
        return Ok(());
    };
    let words = format!(in global; "{line} fault {fault}")?;
    let y = places.row(places.rows).saturating_add(20);
    text(items, MARGIN, y, Style::Refused, words.as_bytes())
}
