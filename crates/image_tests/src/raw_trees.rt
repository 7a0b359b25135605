//! A raw image of five pages with a tree of the host under Linux 7.3.
ghost use Rattle.std.specs.Prelude.{◌≤◌, ◌<◌, ◌+◌, ◌^◌};
ghost use Rattle.walked_tables.specs.ByFrames.{most_pages};

use crate::sample::{add_table, memory, run};
use descriptor::{Frame, Owner};
use image_trees::{Root, Unwalked, walk_tree};
use memory_image::raw_segments;
use std::alloc::{AllocError, Global};
use std::test::Fail;
use table_words::{Decoded, Release, linux_host};
use walked_tables::Reached;

/// Pages 0x50000 and 0x50001 are the root, 0x50002 is below the first, 0x50003 is empty. `last` is the first word of page 0x50001.
fn small_image(alloc: Global, last: u64) -> Result<Vec<u8>, AllocError> {
    let mut bytes = Vec::new(alloc);
    let first = [
        0x0000_0000_4000_07fd,
        0x0000_0000_5000_2003,
        0x0000_0000_6000_0003,
    ];
    add_table(&mut bytes, &first)?;
    add_table(&mut bytes, &[last])?;
    let below = [
        0x0000_0000_4020_07ff,
        0x2000_0000_0000_0002,
        0x2000_0000_0000_0002,
        0,
        0x0100_0000_4020_07ff,
    ];
    add_table(&mut bytes, &below)?;
    add_table(&mut bytes, &[])?;
    Ok(bytes)
}

fn root(count: u64) -> Root
    requires { count ≤ 16 }
    ensures depth { result.depth ≤ 4 }
    ensures few { result.count ≤ most_pages result.depth }
    ensures frames { result.frame + result.count < 2 ^ 64 }
{
    Root {
        tree: 0,
        frame: 0x50000,
        depth: 1,
        count,
        profile: linux_host(Release::V7, false, false),
    }
}

#[test]
fn finds_a_tree(rt: HostRuntime) -> Result<(), Fail> {
    let alloc = rt.alloc();
    let bytes = small_image(alloc, 0x0000_0000_8000_07fd)?;
    let image = bytes.as_slice();
    let segments = raw_segments(alloc, &image, 0x5000_0000)
        .ok()
        .expect(&rt, "an image");
    let tree = walk_tree(alloc, &image, segments.as_slice(), &root(2))
        .ok()
        .expect(&rt, "a tree");
    let hypervisor = Decoded::Annotated {
        owner: Owner(1),
        guest: None,
    };
    let runs = [
        run(0, 513, memory(0x40000)),
        run(513, 2, hypervisor),
        run(516, 1, Decoded::Malformed),
        run(1024, 512, Decoded::Table(Frame(0x60000))),
        run(262144, 512, memory(0x80000)),
    ];
    assert!(&rt; tree.runs.as_slice() == runs.as_slice(), "runs");
    assert!(&rt; tree.tables.len() == 3, "three tables");
    Ok(())
}

#[test]
fn tells_why_there_is_none(rt: HostRuntime) -> Result<(), Fail> {
    let alloc = rt.alloc();
    // the second root page leads on to the table of the first
    let bytes = small_image(alloc, 0x0000_0000_5000_2003)?;
    let image = bytes.as_slice();
    let segments = raw_segments(alloc, &image, 0x5000_0000)
        .ok()
        .expect(&rt, "an image");
    let again = walk_tree(alloc, &image, segments.as_slice(), &root(2)).err();
    let first = Reached {
        tree: 0,
        depth: 0,
        number: 1,
        frame: 0x50002,
    };
    let second = Reached {
        number: 512,
        ..first
    };
    assert!(&rt;
        again == Some(Unwalked::Again { first, second }),
        "a table of two words"
    );
    let past = walk_tree(alloc, &image, segments.as_slice(), &root(5)).err();
    assert!(&rt;
        past == Some(Unwalked::Rootless { frame: 0x50004 }),
        "a root past the end"
    );
    Ok(())
}
