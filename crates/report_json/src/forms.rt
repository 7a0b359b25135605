//! The form of a line.

/// The kind of a field's text.
#[derive(Clone, Copy)]
pub enum Kind {
    /// A decimal number below 2^53, which each reader of JSON keeps exactly. It becomes a number, all that isn't one a string.
    Number,
    /// Such a number, or -1, which become numbers.
    Level,
    /// `0x` and 1 to 16 hexadecimal digits.
    Hexadecimal,
    /// One or more bytes without a space.
    Word,
    /// One of these words.
    OneOf(&'static [&'static str]),
    /// Any text.
    Text,
}

/// A field of a line: its text goes on up to the first place of `stop`, or to the line's end if that is empty.
pub struct Field {
    pub name: &'static str,
    pub kind: Kind,
    pub stop: &'static str,
}

/// The form of a line: `start`, and then the fields, each with its `stop` after it.
pub struct Form {
    /// The object's member `type`.
    pub kind: &'static str,
    pub start: &'static str,
    pub fields: &'static [Field],
}
