//! The size of a heap, as a word says it.
ghost use Rattle.std.specs.Prelude.{◌≡◌};
ghost use Rattle.trace_command.specs.Asked.{heap_size as size_in};

/// The fewest bytes of a heap.
const LEAST: usize = 4096;

/// The most bytes of a heap.
const MOST: usize = 1_073_741_824;

/// The size that a word says in decimal digits, of which the first isn't 0. None if it says no such size, or one out of
/// bounds.
pub fn heap_size(word: &str) -> Option<usize>
    ensures { result ≡ size_in word.now }
{
    let first = *word.as_bytes().first()?;
    if first <= b'0' {
        return None;
    }
    let Ok(size) = word.parse::<usize>() else {
        return None;
    };
    if LEAST <= size && size <= MOST {
        Some(size)
    } else {
        None
    }
}
