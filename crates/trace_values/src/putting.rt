//! A value in place of a name.
ghost use Rattle.std.specs.Prelude.{◌≡◌, ◌==◌, ◌++◌, IfOk, OnOk, map};
ghost use Rattle.std.specs.List.{slice_split};
ghost use Rattle.trace_check.specs.View.{lines_in};
ghost use Rattle.trace_reader.specs.Reading.{lines_of};
ghost use Rattle.trace_values.specs.Expansions.{put_in as put_in_text};
ghost use Rattle.trace_values.specs.Names.{put as put_line, put_behind as put_behind_by, put_word as put_word_by, put_words as put_words_by};

use crate::names::has_names;
use std::alloc::{AllocError, Global};
use trace_check::text_of_lines;
use trace_words::is_name;

/// The words of a line: what is before, between and behind its spaces.
fn words<'a>(global: Global, line: &'a [u8]) -> Result<Vec<&'a [u8]>, AllocError>
    ensures { IfOk result
        (λ words. map (λ word. word.now) words.items
        ≡ slice_split (λ byte. byte == 0x20) line.now) }
{
    line.split(|byte| *byte == b' ').collect(global)
}

/// The value, if the word is the name, else the word.
fn put_word<'a>(name: &[u8], value: &'a [u8], word: &'a [u8]) -> &'a [u8]
    ensures { result.now ≡ put_word_by name.now value.now word.now }
{
    if is_name(word, name) { value } else { word }
}

/// Words behind a first one.
fn add_behind(
    text: &mut Vec<u8>,
    name: &[u8],
    value: &[u8],
    words: &[&[u8]],
) -> Result<(), AllocError>
    ensures { OnOk result
        (text.new.items
        ≡ text.old.items
        ++ put_behind_by name.now value.now (map (λ word. word.now) words.now)) }
{
    for word in words {
        text.extend_from_slice(b" ")?;
        text.extend_from_slice(put_word(name, value, word))?;
    }
    Ok(())
}

/// Words with a space between each two.
fn put_words(
    global: Global,
    name: &[u8],
    value: &[u8],
    words: &[&[u8]],
) -> Result<Vec<u8>, AllocError>
    ensures { IfOk result
        (λ text. text.items
        ≡ put_words_by name.now value.now (map (λ word. word.now) words.now)) }
{
    match words {
        [first, rest @ ..] => {
            let mut text = Vec::from_slice(global, put_word(name, value, first))?;
            add_behind(&mut text, name, value, rest)?;
            Ok(text)
        }
        [] => Ok(Vec::new(global)),
    }
}

/// A line with a value for each word that is the name.
fn put(global: Global, name: &[u8], value: &[u8], line: &[u8]) -> Result<Vec<u8>, AllocError>
    ensures { IfOk result (λ text. text.items ≡ put_line name.now value.now line.now) }
{
    if !has_names(line) {
        return Vec::from_slice(global, line);
    }
    let words = words(global, line)?;
    put_words(global, name, value, words.as_slice())
}

/// All lines so.
fn put_all(
    global: Global,
    name: &[u8],
    value: &[u8],
    lines: &[&[u8]],
) -> Result<Vec<Vec<u8>>, AllocError>
    ensures { IfOk result
        (λ all. lines_in all.items
        ≡ map (put_line name.now value.now) (map (λ line. line.now) lines.now)) }
{
    let mut all = Vec::new(global);
    for line in lines {
        all.push(put(global, name, value, line)?)?;
    }
    Ok(all)
}

/// A text of these lines, with a value for each word of them that is the name.
pub(crate) fn put_in(
    global: Global,
    text: &[u8],
    lines: &[&[u8]],
    name: &[u8],
    value: &[u8],
) -> Result<Vec<u8>, AllocError>
    requires { map (λ line. line.now) lines.now ≡ lines_of text.now }
    ensures { IfOk result (λ new. new.items ≡ put_in_text text.now name.now value.now) }
{
    let all = put_all(global, name, value, lines)?;
    text_of_lines(global, text, all.as_slice())
}
