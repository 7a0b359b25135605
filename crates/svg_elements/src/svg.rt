//! A picture as SVG: its elements, one after another.
ghost use Rattle.std.specs.Prelude.{◌≡◌, ◌++◌, codes, IfOk, OnOk, string_bytes};
ghost use Rattle.std.specs.List.{flat_map};
ghost use Rattle.svg_elements.specs.Items.{
  escaped,
  namespace,
  pattern_line,
  style,
  text_of_filled,
  text_of_item,
  text_of_label,
  text_of_opening,
  text_of_patterns,
  text_of_picture,
  text_of_titled,
  text_of_words,
};

use crate::colours::Colour;
use crate::item::{Head, Item, Label, Paint, Pattern, Rectangle, Size, TitledTag};
use std::alloc::{AllocError, Global};
use std::fmt::Write;

/// The name of SVG.
#[tactic(auto, unfolding(crate::specs::Items::namespace))]
fn namespace_name() -> &'static str
    ensures { result.now ≡ namespace }
{
    "http://www.w3.org/2000/svg"
}

/// How texts are set.
#[tactic(auto, unfolding(crate::specs::Items::style))]
fn style_rules() -> &'static str
    ensures { result.now ≡ style }
{
    "<style>text { font-family: DejaVu Sans Mono, Menlo, Consolas, monospace; fill: #212529; white-space: pre } .title { font-size: 14px; font-weight: bold } .label { font-size: 11px } .edge { font-size: 9px } .code { font-size: 10px } .refused { font-size: 10px; fill: #c92a2a } .slot { font-size: 10px; fill: #ffffff }</style>"
}

/// The first lines of a picture: its size, and how texts are set. Patterns and elements follow, and `</svg>`.
pub fn opening(global: Global, size: Size) -> Result<String, AllocError>
    ensures { IfOk result (λ svg. string_bytes svg ≡ text_of_opening size) }
{
    let space = namespace_name();
    let rules = style_rules();
    let svg = format!(in global; "<svg xmlns='{space}' {size}>\n{rules}\n")?;
    Ok(svg)
}

/// A picture of this size: the elements of its ground, those of its cells, and those over them.
pub fn written(
    global: Global,
    size: Size,
    ground: &[Item],
    cells: &[Item],
    over: &[Item],
) -> Result<String, AllocError>
    ensures { IfOk result
        (λ svg. string_bytes svg ≡ text_of_picture size (ground.now ++ cells.now ++ over.now)) }
{
    let mut svg = opening(global, size)?;
    write_items(&mut svg, ground)?;
    write_items(&mut svg, cells)?;
    write_items(&mut svg, over)?;
    svg.push_str("</svg>\n")?;
    Ok(svg)
}

fn write_items(svg: &mut String, items: &[Item]) -> Result<(), AllocError>
    ensures { OnOk result (string_bytes svg.new ≡ string_bytes svg.old ++ flat_map text_of_item items.now) }
{
    for item in items {
        write_item(svg, item)?;
    }
    Ok(())
}

fn write_item(svg: &mut String, item: &Item) -> Result<(), AllocError>
    ensures { OnOk result (string_bytes svg.new ≡ string_bytes svg.old ++ text_of_item item.now) }
{
    match item {
        Item::Pattern(paint) => {
            let pattern = Pattern(*paint);
            writeln!(svg, "{pattern}")
        }
        Item::Rectangle(rectangle) => write_filled(svg, *rectangle),
        Item::Text(label) => write_label(svg, label),
    }
}

fn write_label(svg: &mut String, label: &Label) -> Result<(), AllocError>
    ensures { OnOk result (string_bytes svg.new ≡ string_bytes svg.old ++ text_of_label label.now) }
{
    write_words(svg, label.head, label.bytes.as_slice())
}

fn write_pattern(svg: &mut String, paint: Paint) -> Result<(), AllocError>
    ensures { OnOk result (string_bytes svg.new ≡ string_bytes svg.old ++ pattern_line paint) }
{
    let pattern = Pattern(paint);
    writeln!(svg, "{pattern}")
}

fn write_patterns_of(svg: &mut String, colour: Colour) -> Result<(), AllocError>
    ensures { OnOk result (string_bytes svg.new ≡ string_bytes svg.old ++ text_of_patterns colour) }
{
    write_pattern(svg, Paint::Lines(colour))?;
    write_pattern(svg, Paint::Dots(colour))?;
    write_pattern(svg, Paint::Bars(colour))
}

/// Writes the patterns of colours.
pub fn write_patterns(svg: &mut String, colours: &[Colour]) -> Result<(), AllocError>
    ensures { OnOk result
        (string_bytes svg.new ≡ string_bytes svg.old ++ flat_map text_of_patterns colours.now) }
{
    for i in 0..colours.len() {
        write_patterns_of(svg, colours[i])?;
    }
    Ok(())
}

/// Writes a rectangle.
pub fn write_filled(svg: &mut String, rectangle: Rectangle) -> Result<(), AllocError>
    ensures { OnOk result (string_bytes svg.new ≡ string_bytes svg.old ++ text_of_filled rectangle) }
{
    writeln!(svg, "{rectangle}")
}

/// Writes a rectangle that tells what it is where a pointer rests on it.
pub fn write_titled(svg: &mut String, rectangle: Rectangle, bytes: &[u8]) -> Result<(), AllocError>
    ensures { OnOk result
        (string_bytes svg.new ≡ string_bytes svg.old ++ text_of_titled rectangle bytes.now) }
{
    let tag = TitledTag(rectangle);
    write!(svg, "{tag}")?;
    write_escaped(svg, bytes)?;
    svg.push_str("</title></rect>\n")
}

/// Writes a text.
pub fn write_words(svg: &mut String, head: Head, bytes: &[u8]) -> Result<(), AllocError>
    ensures { OnOk result (string_bytes svg.new ≡ string_bytes svg.old ++ text_of_words head bytes.now) }
{
    write!(svg, "{head}")?;
    write_escaped(svg, bytes)?;
    svg.push_str("</text>\n")
}

/// Writes bytes as the text of an element.
fn write_escaped(svg: &mut String, bytes: &[u8]) -> Result<(), AllocError>
    ensures { OnOk result (string_bytes svg.new ≡ string_bytes svg.old ++ flat_map escaped bytes.now) }
{
    for byte in bytes {
        write_byte(svg, *byte)?;
    }
    Ok(())
}

/// Writes a byte: `<`, `>` and `&` by their names, and a question mark for what isn't printable ASCII.
fn write_byte(svg: &mut String, byte: u8) -> Result<(), AllocError>
    ensures { OnOk result (string_bytes svg.new ≡ string_bytes svg.old ++ escaped byte) }
{
    if byte == b'<' {
        return svg.push_str("&lt;");
    }
    if byte == b'>' {
        return svg.push_str("&gt;");
    }
    if byte == b'&' {
        return svg.push_str("&amp;");
    }
    if byte < b' ' || byte > b'~' {
        return svg.push_str("?");
    }
    svg.push(char::from(byte))
}
