//! The elements of a picture, and how they are written: each is whole and closed.
ghost use Rattle.std.specs.Prelude.{◌≡◌, Some};
ghost use Rattle.svg_elements.specs.Items.{class_of, text_of_area, text_of_head, text_of_paint, text_of_pattern, text_of_rectangle, text_of_size, text_of_turned, titled_tag};

use crate::colours::Colour;
use std::fmt;

/// What fills a rectangle.
#[derive(Clone, Copy)]
pub enum Paint {
    Plain(Colour),
    /// Thin lines: lent. Their slope says to whom.
    Lines(Colour),
    /// Dots: in the shared pool, or in a hand.
    Dots(Colour),
    /// Level bars: in a guest's pool.
    Bars(Colour),
}

/// A rectangle's place, in pixels.
#[derive(Clone, Copy)]
pub struct Area {
    pub x: u64,
    pub y: u64,
    pub width: u64,
    pub height: u64,
}

/// A filled rectangle.
#[derive(Clone, Copy)]
pub struct Rectangle {
    pub area: Area,
    pub paint: Paint,
}

/// How text is set.
#[derive(Clone, Copy)]
pub enum Style {
    Title,
    Label,
    /// A frame's number over a column, which is turned.
    Edge,
    Code,
    Refused,
    Slot,
}

/// Where a text begins, in pixels, and how it is set.
#[derive(Clone, Copy)]
pub struct Head {
    pub x: u64,
    pub y: u64,
    pub style: Style,
}

/// A text.
#[derive(Drop)]
pub struct Label {
    pub head: Head,
    pub bytes: Vec<u8>,
}

/// An element of a picture.
#[derive(Drop)]
pub enum Item {
    /// What a paint in a colour looks like; none for a plain one.
    Pattern(Paint),
    Rectangle(Rectangle),
    Text(Label),
}

/// The size of a picture, in pixels.
#[derive(Clone, Copy)]
pub struct Size {
    pub width: u64,
    pub height: u64,
}

impl fmt::Display for Paint {
    ghost output = { λ paint. Some (text_of_paint paint) };

    fn fmt<W: fmt::Write>(&self, f: &mut fmt::Formatter<W>) -> fmt::Result {
        match self {
            Paint::Plain(colour) => {
                let code = colour.code();
                write!(f, "#{code}")
            }
            Paint::Lines(colour) => {
                let code = colour.code();
                write!(f, "url(#lines{code})")
            }
            Paint::Dots(colour) => {
                let code = colour.code();
                write!(f, "url(#dots{code})")
            }
            Paint::Bars(colour) => {
                let code = colour.code();
                write!(f, "url(#bars{code})")
            }
        }
    }
}

impl fmt::Display for Area {
    ghost output = { λ area. Some (text_of_area area) };

    fn fmt<W: fmt::Write>(&self, f: &mut fmt::Formatter<W>) -> fmt::Result {
        let Area {
            x,
            y,
            width,
            height,
        } = *self;
        write!(f, "x='{x}' y='{y}' width='{width}' height='{height}'")
    }
}

impl fmt::Display for Rectangle {
    ghost output = { λ rectangle. Some (text_of_rectangle rectangle) };

    fn fmt<W: fmt::Write>(&self, f: &mut fmt::Formatter<W>) -> fmt::Result {
        let Rectangle { area, paint } = *self;
        write!(f, "<rect {area} fill='{paint}'/>")
    }
}

/// The tag of a rectangle that tells what it is.
#[derive(Clone, Copy)]
pub(crate) struct TitledTag(pub(crate) Rectangle);

impl fmt::Display for TitledTag {
    ghost output = { λ tag. Some (titled_tag tag.0) };

    fn fmt<W: fmt::Write>(&self, f: &mut fmt::Formatter<W>) -> fmt::Result {
        let Rectangle { area, paint } = self.0;
        write!(f, "<rect {area} fill='{paint}'><title>")
    }
}

impl Style {
    /// The name of its class.
    fn class(self) -> &'static str
        ensures { result.now ≡ class_of self }
    {
        match self {
            Style::Title => "title",
            Style::Label => "label",
            Style::Edge => "edge",
            Style::Code => "code",
            Style::Refused => "refused",
            Style::Slot => "slot",
        }
    }
}

/// The place of a text that is turned.
#[derive(Clone, Copy)]
struct Turned {
    x: u64,
    y: u64,
}

impl fmt::Display for Turned {
    ghost output = { λ turned. Some (text_of_turned turned.x turned.y) };

    fn fmt<W: fmt::Write>(&self, f: &mut fmt::Formatter<W>) -> fmt::Result {
        let Turned { x, y } = *self;
        write!(f, "translate({x} {y}) rotate(-60)")
    }
}

impl fmt::Display for Head {
    ghost output = { λ head. Some (text_of_head head) };

    fn fmt<W: fmt::Write>(&self, f: &mut fmt::Formatter<W>) -> fmt::Result {
        let Head { x, y, style } = *self;
        let class = style.class();
        match style {
            Style::Edge => {
                let turned = Turned { x, y };
                write!(f, "<text class='{class}' transform='{turned}'>")
            }
            _ => write!(f, "<text class='{class}' x='{x}' y='{y}'>"),
        }
    }
}

/// The pattern of a paint.
#[derive(Clone, Copy)]
pub(crate) struct Pattern(pub(crate) Paint);

impl fmt::Display for Pattern {
    ghost output = { λ pattern. Some (text_of_pattern pattern.0) };

    fn fmt<W: fmt::Write>(&self, f: &mut fmt::Formatter<W>) -> fmt::Result {
        match self.0 {
            Paint::Plain(_) => Ok(()),
            Paint::Lines(colour) => {
                let code = colour.code();
                let angle = colour.angle();
                write!(
                    f,
                    "<pattern id='lines{code}' width='8' height='8' patternUnits='userSpaceOnUse' patternTransform='rotate({angle})'><rect width='1.3' height='8' fill='#{code}'/></pattern>"
                )
            }
            Paint::Dots(colour) => {
                let code = colour.code();
                write!(
                    f,
                    "<pattern id='dots{code}' width='4' height='4' patternUnits='userSpaceOnUse'><circle cx='2' cy='2' r='1.2' fill='#{code}'/></pattern>"
                )
            }
            Paint::Bars(colour) => {
                let code = colour.code();
                write!(
                    f,
                    "<pattern id='bars{code}' width='4' height='4' patternUnits='userSpaceOnUse'><rect width='4' height='1.6' fill='#{code}'/></pattern>"
                )
            }
        }
    }
}

impl fmt::Display for Size {
    ghost output = { λ size. Some (text_of_size size) };

    fn fmt<W: fmt::Write>(&self, f: &mut fmt::Formatter<W>) -> fmt::Result {
        let Size { width, height } = *self;
        write!(
            f,
            "width='{width}' height='{height}' viewBox='0 0 {width} {height}'"
        )
    }
}
