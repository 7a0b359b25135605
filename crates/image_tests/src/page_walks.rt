//! A small tree of the host under Linux 7.3: a root of two pages at level 2, and a table of level 3.
ghost use Rattle.std.specs.Prelude.{AllPairs};
ghost use Rattle.walked_tables.specs.Reached.{AreOtherFrames};

use crate::sample::{memory, run};
use descriptor::{Frame, Owner};
use run_list::Run;
use std::alloc::{AllocError, Global};
use std::process::Abort;
use std::test::Fail;
use table_words::{Decoded, Release, linux_host, linux_hypervisor};
use walked_tables::{Reached, Said, Stopped, TablePage, are_whole, root_pages, walked};

/// A table whose words are the given ones and zeros.
fn table(alloc: Global, first: &[u64]) -> Result<Vec<u64>, AllocError> {
    let mut words = Vec::new(alloc);
    for i in 0..512usize {
        words.push(if i < first.len() { first[i] } else { 0 })?;
    }
    Ok(words)
}

/// Walks from roots of two pages from frame 0x50000 on.
fn walk(
    rt: &impl Abort,
    alloc: Global,
    pages: &[TablePage<'_>],
    met: &mut Vec<Reached>,
) -> Result<Vec<Run<Said>>, Stopped>
    requires { AllPairs AreOtherFrames met.old.items }
{
    let profile = linux_host(Release::V7, false, false);
    let roots = root_pages(alloc, pages, 0x50000, 2)?.expect(rt, "both pages of the root");
    assert!(rt; are_whole(pages), "whole pages");
    assert!(rt; are_whole(roots.as_slice()), "whole roots");
    assert!(rt; roots.len() <= 16, "few roots");
    walked(alloc, &profile, pages, 7, 1, roots.as_slice(), met)
}

#[test]
fn finds_runs_and_tables(rt: HostRuntime) -> Result<(), Fail> {
    let alloc = rt.alloc();
    // a block of 512 pages, a table, and a table whose page isn't there
    let first = table(
        alloc,
        &[
            0x0000_0000_4000_07fd,
            0x0000_0000_5000_2003,
            0x0000_0000_6000_0003,
        ],
    )?;
    // the first word of the second page
    let second = table(alloc, &[0x0000_0000_8000_07fd])?;
    // a page that continues the block, two of the hypervisor, one that says nothing, a word that is none
    let below = table(
        alloc,
        &[
            0x0000_0000_4020_07ff,
            0x2000_0000_0000_0002,
            0x2000_0000_0000_0002,
            0,
            0x0100_0000_4020_07ff,
        ],
    )?;
    let pages = [
        TablePage {
            frame: 0x50000,
            words: first.as_slice(),
        },
        TablePage {
            frame: 0x50001,
            words: second.as_slice(),
        },
        TablePage {
            frame: 0x50002,
            words: below.as_slice(),
        },
    ];
    let mut met = Vec::new(alloc);
    let found = walk(&rt, alloc, &pages, &mut met)
        .ok()
        .expect(&rt, "a walk");
    let hypervisor = Decoded::Annotated {
        owner: Owner(1),
        guest: None,
    };
    let runs = [
        run(0, 513, memory(0x40000)),
        run(513, 2, hypervisor),
        run(516, 1, Decoded::Malformed),
        run(1024, 512, Decoded::Table(Frame(0x60000))),
        run(262144, 512, memory(0x80000)),
    ];
    assert!(&rt; found.as_slice() == runs.as_slice(), "runs");
    let tables = [
        Reached {
            tree: 7,
            depth: 1,
            number: 0,
            frame: 0x50000,
        },
        Reached {
            tree: 7,
            depth: 0,
            number: 1,
            frame: 0x50002,
        },
        Reached {
            tree: 7,
            depth: 1,
            number: 1,
            frame: 0x50001,
        },
    ];
    assert!(&rt; met.as_slice() == tables.as_slice(), "tables");
    Ok(())
}

#[test]
fn stops_at_a_table_of_two_words(rt: HostRuntime) -> Result<(), Fail> {
    let alloc = rt.alloc();
    let first = table(alloc, &[0x0000_0000_5000_2003, 0x0000_0000_5000_2003])?;
    let none = table(alloc, &[])?;
    let pages = [
        TablePage {
            frame: 0x50000,
            words: first.as_slice(),
        },
        TablePage {
            frame: 0x50001,
            words: none.as_slice(),
        },
        TablePage {
            frame: 0x50002,
            words: none.as_slice(),
        },
    ];
    let mut met = Vec::new(alloc);
    let stopped = walk(&rt, alloc, &pages, &mut met).err();
    let again = Stopped::Again {
        first: Reached {
            tree: 7,
            depth: 0,
            number: 0,
            frame: 0x50002,
        },
        second: Reached {
            tree: 7,
            depth: 0,
            number: 1,
            frame: 0x50002,
        },
    };
    assert!(&rt; stopped == Some(again), "again");
    Ok(())
}

#[test]
fn begins_at_level_minus_one(rt: HostRuntime) -> Result<(), Fail> {
    let alloc = rt.alloc();
    // a table, a word that says nothing, and another one, which no address reaches
    let root = table(
        alloc,
        &[
            0,
            0x0000_0000_5000_1003,
            1,
            0,
            0,
            0,
            0,
            0,
            0,
            0,
            0,
            0,
            0,
            0,
            0,
            0,
            1,
        ],
    )?;
    let below = table(alloc, &[0x0000_0000_6000_0003])?;
    let pages = [
        TablePage {
            frame: 0x50000,
            words: root.as_slice(),
        },
        TablePage {
            frame: 0x50001,
            words: below.as_slice(),
        },
    ];
    let profile = linux_hypervisor(Release::V7, true, true);
    assert!(&rt; are_whole(&pages), "whole pages");
    assert!(&rt; are_whole(&pages[..1]), "a whole root");
    let mut met = Vec::new(alloc);
    let found = walked(alloc, &profile, &pages, 1, 4, &pages[..1], &mut met)
        .ok()
        .expect(&rt, "a walk");
    let runs = [
        run(1 << 36, 1 << 27, Decoded::Table(Frame(0x60000))),
        run(2 << 36, 1 << 36, Decoded::Malformed),
    ];
    assert!(&rt; found.as_slice() == runs.as_slice(), "runs");
    let top = Reached {
        tree: 1,
        depth: 4,
        number: 0,
        frame: 0x50000,
    };
    let next = Reached {
        depth: 3,
        number: 1,
        frame: 0x50001,
        ..top
    };
    assert!(&rt; met.as_slice() == [top, next].as_slice(), "tables");
    Ok(())
}
