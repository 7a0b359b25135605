//! Reading a trace line by line.
ghost use Rattle.std.specs.Prelude.{◌<◌, ◌^◌, IfOk};
ghost use Rattle.trace_reader.specs.Ahead.{left};
ghost use Rattle.trace_reader.specs.Devices.{ReportsRead};
ghost use Rattle.trace_reader.specs.Reading.{ReadsLine};

use crate::ahead::ReadAhead;
use crate::outcome::EngineFault;
use crate::source::{Failed, Source};

/// The most bytes of a line, its end apart.
pub const MOST_BYTES: usize = 256;

/// Reads the next line into `line`, without its end, and says whether there was one. The last may lack its end. Of a
/// line of over 256 bytes the first 257 are read.
pub fn read_line<S: Source>(
    source: &mut S,
    ahead: &mut ReadAhead,
    line: &mut Vec<u8>,
) -> Result<bool, EngineFault>
    ensures ok { IfOk result
        (λ found. ReadsLine found (left ahead.old (S.remaining source.old))
        (left ahead.new (S.remaining source.new)) line.new.items) }
    ensures counted { ReportsRead (S.failures source.old) (S.failures source.new) result }
{
    line.clear();
    for _ in 0..MOST_BYTES + 1 {
        match ahead.fill(source) {
            Ok(()) => {}
            Err(Failed) => return Err(EngineFault::Read),
        }
        if ahead.is_empty() {
            return Ok(!line.is_empty());
        }
        match ahead.give(line) {
            Ok(true) => return Ok(true),
            Ok(false) => {
                if line.len() > MOST_BYTES {
                    return Ok(true);
                }
            }
            Err(_) => return Err(EngineFault::NoMemory),
        }
    }
    Ok(true)
}
