//! A kept state compared with the tables in memory.
ghost use Rattle.std.specs.Prelude.{◌≡◌, IfErr, IfOk};
ghost use Rattle.c_states.specs.Views.{lists_from_c};
ghost use Rattle.ghost_spec.specs.Filled.{HasTablesApart};
ghost use Rattle.pkvm_oracle.specs.Audited.{fault_again, fault_of_root, is_in_block as is_in_block_of, parent as parent_of, refused_by_audit, refused_by_trees, status_by_audit, status_by_trees, IsAudited, IsChecked, IsCheckedFrom, IsUnchecked, IsUncheckedFrom};

use crate::judged::{NOTHING, PlainRefused, unmade_refused, unmade_status};
use crate::statuses::{BAD_BEFORE, BAD_TABLES, NO_MEMORY, NO_ROOM};
use c_states::{PlainLayout, PlainState, Unmade, made};
use c_trees::{PlainRoot, RootFault, TreeFault, trees_of};
use ghost_spec::state::Ghost;
use std::alloc::Global;
use table_audit::{Finding, audited, write_finding};
use walked_tables::{Reached, TablePage};

/// Why there is no audit. The first that is true is answered, in the order of the variants.
#[derive(Clone, Copy, PartialEq)]
enum Unchecked {
    /// The layout or the kept state is refused.
    Kept(Unmade),
    /// The pages and roots make no trees.
    Trees(TreeFault),
    /// Memory was refused.
    NoMemory,
}

/// Compares a kept state with the trees that are found by walking pages from roots: None if all agrees and is legal,
/// and else the first difference, or why it isn't legal.
fn checked(
    alloc: Global,
    layout: &PlainLayout<'_>,
    kept: &PlainState<'_>,
    pages: &[TablePage<'_>],
    roots: &[PlainRoot<'_>],
) -> Result<Option<Finding>, Unchecked>
    ensures checked { IfOk result
        (IsChecked layout.now layout.now.regions.now (lists_from_c kept.now) pages.now roots.now) }
    ensures unchecked { IfErr result
        (IsUnchecked layout.now layout.now.regions.now
        (lists_from_c kept.now) pages.now roots.now) }
{
    match made(alloc, layout, kept) {
        Ok(state) => {
            let found = checked_with(alloc, &state, pages, roots);
            drop(state);
            found
        }
        Err(why) => Err(Unchecked::Kept(why)),
    }
}

/// From the kept state on.
fn checked_with(
    alloc: Global,
    kept: &Ghost,
    pages: &[TablePage<'_>],
    roots: &[PlainRoot<'_>],
) -> Result<Option<Finding>, Unchecked>
    requires { HasTablesApart kept.now }
    ensures checked { IfOk result (IsCheckedFrom kept.now pages.now roots.now) }
    ensures unchecked { IfErr result (IsUncheckedFrom kept.now.layout.geometry pages.now roots.now) }
{
    let trees = match trees_of(
        alloc,
        kept.lists().layout.geometry,
        pages,
        roots,
        kept.lists(),
    ) {
        Ok(trees) => trees,
        Err(fault) => return Err(Unchecked::Trees(fault)),
    };
    let found = audited(alloc, kept, trees.as_slice());
    drop(trees);
    match found {
        Ok(found) => Ok(found),
        Err(_) => Err(Unchecked::NoMemory),
    }
}

/// The number of the block that is so many levels up and has the block in it.
fn parent(levels: u64, index: u64) -> u64
    ensures { result ≡ parent_of levels index }
{
    let mut found = index;
    for _up in 0..levels {
        found /= 512;
    }
    found
}

/// Whether a table's block lies in another's, which is larger.
fn is_in_block(upper: Reached, lower: Reached) -> bool
    ensures { result ≡ is_in_block_of upper lower }
{
    lower.depth < upper.depth && parent(upper.depth - lower.depth, lower.number) == upper.number
}

/// The number of the fault of a walk that comes to a table again.
fn again_number(first: Reached, second: Reached) -> u64
    ensures { result ≡ fault_again first second }
{
    if first.tree == second.tree && is_in_block(first, second) {
        20
    } else if first.depth != second.depth {
        21
    } else {
        22
    }
}

/// A fault of a page.
fn of_page(fault: u64, at: usize) -> PlainRefused
    ensures { result ≡ record { fault = fault; list = 9; index = at } }
{
    PlainRefused {
        fault,
        list: 9,
        index: at as u64,
    }
}

/// A fault of a root.
fn of_root(fault: u64, at: usize) -> PlainRefused
    ensures { result ≡ record { fault = fault; list = 10; index = at } }
{
    PlainRefused {
        fault,
        list: 10,
        index: at as u64,
    }
}

/// The number of the fault of a root.
fn root_number(fault: RootFault) -> u64
    ensures { result ≡ fault_of_root fault }
{
    match fault {
        RootFault::Profile => 27,
        RootFault::Levels => 28,
        RootFault::Pages => 29,
        RootFault::Skips => 30,
    }
}

/// Why pages and roots make no trees, in numbers. Of a walk, with the tree and the frame.
fn trees_refused(fault: TreeFault) -> PlainRefused
    ensures { result ≡ refused_by_trees fault }
{
    match fault {
        TreeFault::Short(at) => of_page(15, at),
        TreeFault::PageTwice(at) => of_page(16, at),
        TreeFault::NoTree(at) => of_root(17, at),
        TreeFault::RootTwice(at) => of_root(18, at),
        TreeFault::BadRoot(at, fault) => of_root(root_number(fault), at),
        TreeFault::NoPage(at) => of_root(19, at),
        TreeFault::Again { first, second } => PlainRefused {
            fault: again_number(first, second),
            list: second.tree,
            index: second.frame,
        },
        TreeFault::NoMemory => NOTHING,
    }
}

/// The status of pages and roots that make no trees.
fn trees_status(fault: TreeFault) -> i32
    ensures { result ≡ status_by_trees fault }
{
    match fault {
        TreeFault::NoMemory => NO_MEMORY,
        _ => BAD_TABLES,
    }
}

/// The refusal of an audit that isn't made.
fn unchecked_refused(why: Unchecked) -> PlainRefused
    ensures { result ≡ refused_by_audit why }
{
    match why {
        Unchecked::Kept(why) => unmade_refused(why),
        Unchecked::Trees(fault) => trees_refused(fault),
        Unchecked::NoMemory => NOTHING,
    }
}

/// The status then.
fn unchecked_status(why: Unchecked) -> i32
    ensures { result ≡ status_by_audit why }
{
    match why {
        Unchecked::Kept(why) => unmade_status(why, BAD_BEFORE),
        Unchecked::Trees(fault) => trees_status(fault),
        Unchecked::NoMemory => NO_MEMORY,
    }
}

/// Compares a kept state with the trees that are found by walking pages of tables from their roots: 0 if the maps, the
/// tables and the owner rows agree, and the state is legal; else 1, and the first `text_len` bytes of `text` say the
/// first difference, or, if there is none, why the maps aren't sound, or, if they are, what else isn't legal. Below 0
/// nothing is written to `text`: -2 it has fewer than `text_len` bytes, which the difference needs; -8, -9 and -13
/// something is refused, and `refused` says what; -12 memory was.
#[unsafe(no_mangle)]
pub extern "C" fn pkvm_audit(
    alloc: Global,
    layout: &PlainLayout<'_>,
    kept: &PlainState<'_>,
    pages: &[TablePage<'_>],
    roots: &[PlainRoot<'_>],
    text: &mut [u8],
    text_len: &mut usize,
    refused: &mut PlainRefused,
) -> i32
    ensures { IsAudited layout.now layout.now.regions.now
        (lists_from_c kept.now) pages.now roots.now text.old text.new text_len.new refused.new
        result }
{
    *text_len = 0;
    *refused = NOTHING;
    let found = match checked(alloc, layout, kept, pages, roots) {
        Ok(None) => return 0,
        Ok(Some(found)) => found,
        Err(why) => {
            *refused = unchecked_refused(why);
            return unchecked_status(why);
        }
    };
    match write_finding(alloc, found, text) {
        Ok(count) => {
            *text_len = count;
            if count <= text.len() { 1 } else { NO_ROOM }
        }
        Err(_) => NO_MEMORY,
    }
}
