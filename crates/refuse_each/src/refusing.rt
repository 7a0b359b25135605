//! Controls the library that is loaded before the C library's (`tests/refused/refuse.c`): requests of odd sizes that
//! nothing else makes select the requests for memory that it refuses. Without that library these are granted, and
//! nothing is refused.
use std::alloc::Global;

/// The size of the request that begins to count: from here on the Nth request is refused, for N up to `MOST`, by a size of
/// `NTH + 2 * N`.
const NTH: usize = 10_000_001;

/// The most requests of one call that are refused in turn.
pub const MOST: usize = 1_000_000;

/// The size of the request from which on all are refused.
const ALL: usize = 9_000_001;

/// The size of the request that ends refusing, and is itself refused if a request was.
const MET: usize = 9_000_003;

fn is_refused(global: Global, size: usize) -> bool {
    let asked: Result<Vec<u8>, _> = Vec::with_capacity(global, size);
    asked.is_err()
}

/// Has the Nth request from here on refused.
pub fn refuse_nth(global: Global, n: usize) {
    let _ = is_refused(global, NTH + 2 * n.min(MOST));
}

/// Has all requests from here on refused.
pub fn refuse_all(global: Global) {
    let _ = is_refused(global, ALL);
}

/// Ends refusing, and returns whether a request was refused.
pub fn has_met(global: Global) -> bool {
    is_refused(global, MET)
}

/// What a call came to.
#[derive(Clone, Copy, PartialEq)]
pub enum Came {
    Done,
    NoMemory,
    Else,
}

/// The result of a call that is refused only for lack of memory.
pub fn by_memory<T: Drop, E: Drop>(answer: Result<T, E>) -> Came {
    match answer {
        Ok(_) => Came::Done,
        Err(_) => Came::NoMemory,
    }
}

/// Makes a call with each of its requests refused in turn, until a try is refused none, and returns how many were. None if a
/// try that was refused a request came to anything but NoMemory, or the last one isn't done.
pub fn in_turn<F: FnMut() -> Came>(global: Global, mut call: F) -> Option<usize>
    requires { F.IsAlwaysCallable call }
{
    for n in 1..MOST {
        refuse_nth(global, n);
        let came = call();
        let met = has_met(global);
        match (came, met) {
            (Came::NoMemory, true) => {}
            (Came::Done, false) => return Some(n - 1),
            _ => return None,
        }
    }
    None
}
