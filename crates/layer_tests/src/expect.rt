//! Comparisons, each of which is written here once.
use page_state::Entry;
use std::fmt::Debug;
use std::process::Abort;

/// Compares two values.
pub(crate) fn expect_same<T: PartialEq + Debug>(rt: &impl Abort, found: &T, wanted: &T) {
    assert_eq!(rt; found, wanted);
}

/// Compares a number.
pub(crate) fn expect_number(rt: &impl Abort, found: usize, wanted: usize) {
    expect_same(rt, &found, &wanted);
}

/// Compares a word, or that there is none.
pub(crate) fn expect_word(rt: &impl Abort, found: Option<u64>, wanted: Option<u64>) {
    expect_same(rt, &found, &wanted);
}

/// Compares an entry.
pub(crate) fn expect_entry(rt: &impl Abort, found: Entry, wanted: Entry) {
    expect_same(rt, &found, &wanted);
}
