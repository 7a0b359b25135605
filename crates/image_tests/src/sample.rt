//! What tests of tables in memory begin with.
use descriptor::Frame;
use page_state::{Page, PageRange};
use run_list::Run;
use std::alloc::AllocError;
use table_words::{Access, Decoded, Execute, Mapping, Memory};
use walked_tables::Said;

/// Adds a page whose first words are the given ones, and the others zeros.
pub(crate) fn add_table(bytes: &mut Vec<u8>, first: &[u64]) -> Result<(), AllocError> {
    for i in 0..512usize {
        let word = if i < first.len() { first[i] } else { 0 };
        bytes.extend_from_slice(&word.to_le_bytes())?;
    }
    Ok(())
}

/// The host's own memory, or memory that it borrows: 7.3's words have no state.
pub(crate) fn memory(frame: u64) -> Decoded {
    Decoded::Leaf(Mapping {
        frame: Frame(frame),
        access: Access::ReadWrite,
        execute: Execute::Everybody,
        memory: Memory::FromStage1,
        state: None,
        guarded: false,
        aged: false,
    })
}

/// So many pages that say this.
pub(crate) fn run(first: u64, count: u64, decoded: Decoded) -> Run<Said> {
    Run {
        pages: PageRange {
            first: Page(first),
            count,
        },
        value: Said(decoded),
    }
}
