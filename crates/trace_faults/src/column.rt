//! Columns of a line, counted from 1 in bytes.
ghost use Rattle.std.specs.Prelude.{◌≡◌};
ghost use Rattle.trace_faults.specs.Columns.{space_column as space_column_by, stray_column as stray_column_by, word_column as word_column_by};

/// The column, from 1, of the word at a place, counted from 0. One past the line's end if there is no such word.
pub(crate) fn word_column(line: &[u8], place: usize) -> u64
    ensures { result ≡ word_column_by line.now place }
{
    let mut left = place;
    for (index, byte) in line.iter().enumerate() {
        if left == 0 {
            return index as u64 + 1;
        }
        if *byte == b' ' {
            left -= 1;
        }
    }
    line.len() as u64 + 1
}

/// The column, from 1, of the first byte outside 0x20 to 0x7e. One past the line's end if there is none.
pub(crate) fn stray_column(line: &[u8]) -> u64
    ensures { result ≡ stray_column_by line.now }
{
    for (index, byte) in line.iter().enumerate() {
        if *byte < 0x20 || *byte > 0x7e {
            return index as u64 + 1;
        }
    }
    line.len() as u64 + 1
}

/// The column of the first space that has no word before it, or of the last one if the line ends after it.
pub(crate) fn space_column(line: &[u8]) -> u64
    ensures { result ≡ space_column_by line.now }
{
    let mut spaced = true;
    for (index, byte) in line.iter().enumerate() {
        let is_space = *byte == b' ';
        if spaced && is_space {
            return index as u64 + 1;
        }
        spaced = is_space;
    }
    line.len() as u64
}
