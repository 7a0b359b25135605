//! Pokes at paths that a tree doesn't have.
use super::expect::expect_word;
use descriptor::Frame;
use page_state::Geometry;
use std::alloc::{AllocError, Global};
use std::process::Abort;
use table_tree::{PathFault, RawTree, Table};

/// A tree of two tables: the root, and one in frame 6 at its slot 3.
fn two_tables(alloc: Global) -> Result<RawTree<Global>, AllocError> {
    let mut table = Table::new(alloc, Frame(0x40600))?;
    let child = Table::new(alloc, Frame(6))?;
    table.attach(3, Box::new(alloc, child)?);
    Ok(RawTree {
        geometry: Geometry::Bits39,
        table,
    })
}

/// Pokes at a path that a tree doesn't have, and gives the tree back.
fn poke_badly(rt: &impl Abort, tree: RawTree<Global>, path: &[u16]) -> RawTree<Global> {
    let refused = tree.poke(path, 1).err();
    let (same, PathFault) = refused.expect(rt, "no word there");
    same
}

#[test]
fn path_faults(rt: HostRuntime) {
    let mut tree = two_tables(rt.alloc()).expect(&rt, "memory");
    let paths: [&[u16]; 5] = [&[], &[512], &[4, 0], &[3, 512], &[3, 5, 0]];
    for path in paths {
        tree = poke_badly(&rt, tree, path);
    }
    expect_word(&rt, tree.word_at(&[3]), Some(0x6003));
}
