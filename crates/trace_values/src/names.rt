//! Names in the lines of a trace.
ghost use Rattle.std.specs.Prelude.{◌≡◌, ◌<◌, ◌≤◌, IfSome, length, map, option_map, true};
ghost use Rattle.trace_values.specs.Names.{dollar_from, dollar_in as dollar_in_line, first_name as first_name_in, first_word as first_word_of, has_names as has_names_line, has_other as has_other_by, is_name_byte as is_name_byte_by, is_named as is_named_word, is_plain_name as is_plain_name_by, name_of};
ghost use Rattle.trace_values.specs.View.{named_in};
ghost use Rattle.trace_words.specs.Words.{is_silent as is_silent_line};

use trace_check::expectation;
use trace_words::Words;

/// A name, and where it is.
#[derive(Clone, Copy)]
pub(crate) struct Named<'a> {
    /// The number of its line, counted from 1.
    pub number: usize,
    pub line: &'a [u8],
    /// How many bytes of the line are before it.
    pub offset: usize,
}

impl<'a> Named<'a> {
    /// The name, with its `$`.
    pub fn name(self) -> &'a [u8]
        requires { self.offset < length self.line.now }
        ensures { result.now ≡ name_of (named_in self.entry) }
    {
        first_word(&self.line[self.offset..])
    }
}

/// The bytes before the first space.
pub(crate) fn first_word(bytes: &[u8]) -> &[u8]
    ensures { result.now ≡ first_word_of bytes.now }
{
    Words::of(bytes).get(0).unwrap_or(b"")
}

/// Whether a byte is a letter, a digit or `_`.
fn is_name_byte(byte: u8) -> bool
    ensures { result ≡ is_name_byte_by byte }
{
    (b'0' <= byte && byte <= b'9')
        || (b'A' <= byte && byte <= b'Z')
        || (b'a' <= byte && byte <= b'z')
        || byte == b'_'
}

/// Whether bytes may stand after `$`.
fn is_plain_name(bytes: &[u8]) -> bool
    ensures { result ≡ is_plain_name_by bytes.now }
{
    if bytes.is_empty() {
        return false;
    }
    !has_other(bytes)
}

/// Whether a byte among these is none of a name.
fn has_other(bytes: &[u8]) -> bool
    ensures { result ≡ has_other_by bytes.now }
{
    bytes.iter().any(|byte| !is_name_byte(*byte))
}

/// Whether a word is `$` and a name of letters, digits and `_`.
pub(crate) fn is_named(word: &[u8]) -> bool
    ensures { result ≡ is_named_word word.now }
{
    match word {
        [first, rest @ ..] => *first == b'$' && is_plain_name(rest),
        [] => false,
    }
}

/// An empty line, and one that begins with `#`.
fn is_silent(line: &[u8]) -> bool
    ensures { result ≡ is_silent_line line.now }
{
    matches!(line, [] | [b'#', ..])
}

/// Whether words of a line may be names.
pub(crate) fn has_names(line: &[u8]) -> bool
    ensures { result ≡ has_names_line line.now }
{
    expectation(line).is_some() || !is_silent(line)
}

/// How many bytes are before the first `$` that begins a word.
fn dollar(line: &[u8]) -> Option<usize>
    ensures place { result ≡ dollar_from 0 true line.now }
    ensures below { IfSome result (λ place. place < length line.now) }
{
    let mut spaced = true;
    for (place, byte) in line.iter().enumerate() {
        if spaced && *byte == b'$' {
            return Some(place);
        }
        spaced = *byte == b' ';
    }
    None
}

/// How many bytes of a line are before its first name.
pub(crate) fn dollar_in(line: &[u8]) -> Option<usize>
    ensures place { result ≡ dollar_in_line line.now }
    ensures below { IfSome result (λ place. place < length line.now) }
{
    if !has_names(line) {
        return None;
    }
    dollar(line)
}

/// The first name of lines.
pub(crate) fn first_name<'a>(lines: &[&'a [u8]]) -> Option<Named<'a>>
    ensures name { option_map named_in result ≡ first_name_in (map (λ line. line.now) lines.now) }
    ensures first { IfSome result (λ named. 0 < named.number) }
    ensures below { IfSome result (λ named. named.number ≤ length lines.now) }
    ensures inside { IfSome result (λ named. named.offset < length named.line.now) }
{
    for (place, line) in lines.iter().enumerate() {
        if let Some(offset) = dollar_in(line) {
            return Some(Named {
                number: place + 1,
                line,
                offset,
            });
        }
    }
    None
}
