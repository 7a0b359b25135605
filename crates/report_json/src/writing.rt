//! A writer that turns lines into JSON.
ghost use Rattle.std.specs.Prelude.{◌≡◌, ◌≤◌, [], ◌++◌, IfOk, OnOk, length};
ghost use Rattle.report_json.specs.Writing.{AddsLine, Takes};

use crate::forms::Form;
use crate::objects::json_of;
use memchr::memchr;
use std::alloc::Global;
use std::io::{self, Error, ErrorKind, Write};

/// A report's writer that writes the object of each line, as JSON in a line of its own. It holds a line until that has its end, and
/// never writes one that has none.
#[derive(Drop)]
pub struct JsonLines<W> {
    global: Global,
    forms: &'static [Form],
    writer: W,
    held: Vec<u8>,
}

impl<W: Write> JsonLines<W> {
    /// A writer of lines of these forms.
    pub fn new(global: Global, forms: &'static [Form], writer: W) -> JsonLines<W>
        ensures forms { result.forms.now ≡ forms.now }
        ensures writer { result.writer ≡ writer }
        ensures held { result.held.items ≡ [] }
    {
        JsonLines {
            global,
            forms,
            writer,
            held: Vec::new(global),
        }
    }

    /// Takes bytes of a report up to the first end of a line, whose line is written then, and answers how many.
    pub fn take(&mut self, bytes: &[u8]) -> io::Result<usize>
        ensures bound { IfOk result (λ count. count ≤ length bytes.now) }
        ensures forms { self.new.forms.now ≡ self.old.forms.now }
        ensures taken { IfOk result (Takes W.contents bytes.now self.old self.new) }
    {
        match memchr(b'\n', bytes) {
            Some(place) => {
                self.hold(&bytes[..place])?;
                self.tell()?;
                Ok(place + 1)
            }
            None => {
                self.hold(bytes)?;
                Ok(bytes.len())
            }
        }
    }

    /// Holds these bytes too.
    fn hold(&mut self, bytes: &[u8]) -> io::Result<()>
        ensures forms { self.new.forms.now ≡ self.old.forms.now }
        ensures writer { W.contents self.new.writer ≡ W.contents self.old.writer }
        ensures held { OnOk result (self.new.held.items ≡ self.old.held.items ++ bytes.now) }
    {
        match self.held.extend_from_slice(bytes) {
            Ok(()) => Ok(()),
            Err(_) => Err(Error::from(ErrorKind::OutOfMemory)),
        }
    }

    /// Writes the object of the line that is held, which has its end.
    fn tell(&mut self) -> io::Result<()>
        ensures forms { self.new.forms.now ≡ self.old.forms.now }
        ensures held { OnOk result (self.new.held.items ≡ []) }
        ensures told { OnOk result
            (AddsLine self.old.forms.now self.old.held.items (W.contents self.old.writer)
            (W.contents self.new.writer)) }
    {
        let Ok(mut text) = json_of(self.global, self.forms, self.held.as_slice()) else {
            return Err(Error::from(ErrorKind::OutOfMemory));
        };
        if text.push_str("\n").is_err() {
            return Err(Error::from(ErrorKind::OutOfMemory));
        }
        self.writer.write_all(text.as_bytes())?;
        self.held.clear();
        Ok(())
    }
}

impl<W: Write> Write for JsonLines<W> {
    fn write(&mut self, buf: &[u8]) -> io::Result<usize> {
        self.take(buf)
    }

    fn flush(&mut self) -> io::Result<()> {
        self.writer.flush()
    }
}
