//! A raw image with trees of the host, the hypervisor and a guest in the model's words.
ghost use Rattle.std.specs.Prelude.{◌≡◌, ◌≤◌};

use crate::sample::add_table;
use image_dump::{Dumped, Shape, Skip, dump_trees};
use image_trees::Root;
use memory_image::raw_segments;
use std::alloc::{AllocError, Global};
use std::test::Fail;
use table_words::{Profile, Release, linux_host, linux_hypervisor, model};

/// Page 0 is the host's table, page 1 the hypervisor's, page 2 guest 0's, each of level 3. Pages 0 to 2 are the hypervisor's, page
/// 3 is shared with it, page 4 is the guest's; `poked` is the host's word of page 5.
fn small_image(alloc: Global, poked: u64) -> Result<Vec<u8>, AllocError> {
    let mut bytes = Vec::new(alloc);
    let host = [0x4, 0x4, 0x4, 0x0080_0000_0000_37ff, 0x8, poked];
    add_table(&mut bytes, &host)?;
    let hypervisor = [
        0x0040_0000_0000_07ff,
        0x0040_0000_0000_17ff,
        0x0040_0000_0000_27ff,
        0x0140_0000_0000_37ff,
    ];
    add_table(&mut bytes, &hypervisor)?;
    add_table(&mut bytes, &[0x47ff])?;
    Ok(bytes)
}

fn root(tree: u64, frame: u64, profile: Profile) -> Root
    requires { frame ≤ 2 }
    ensures depth { result.depth ≡ 0 }
    ensures count { result.count ≡ 1 }
    ensures frame { result.frame ≡ frame }
{
    Root {
        tree,
        frame,
        depth: 0,
        count: 1,
        profile,
    }
}

/// The report for the image whose word of the host is poked so.
fn report(
    alloc: Global,
    poked: u64,
    skips: &[Skip],
    shape: Shape,
) -> Result<Option<(Dumped, Vec<u8>)>, AllocError> {
    let bytes = small_image(alloc, poked)?;
    let image = bytes.as_slice();
    let Ok(segments) = raw_segments(alloc, &image, 0) else {
        return Ok(None);
    };
    let roots = [
        root(0, 0, model()),
        root(1, 1, model()),
        root(2, 2, model()),
    ];
    let mut text = Vec::new(alloc);
    match dump_trees(
        alloc,
        &image,
        segments.as_slice(),
        roots.as_slice(),
        None,
        skips,
        shape,
        &mut text,
    ) {
        Ok(dumped) => Ok(Some((dumped, text))),
        Err(_) => Ok(None),
    }
}

/// The lines before the findings, if the host's word of page 5 gives this line and the hypervisor's page 3 that one.
const TREES: &str =
    "tree host root 0x0 level 3 pages 1 tables 1\n0x0 0x3 owner 1\n0x3 0x1 frame 0x3 rwx normal shared\n0x4 0x1 owner 2\n";

const HYP: &str =
    "tree hyp root 0x1 level 3 pages 1 tables 1\n0x0 0x3 frame 0x0 rw- normal owned\n";

const LENT: &str = "0x3 0x1 frame 0x3 rw- normal borrowed\n";

const GUEST: &str =
    "tree guest 0 root 0x2 level 3 pages 1 tables 1\n0x0 0x1 frame 0x4 rwx normal owned\n";

#[test]
fn tells_what_is_found(rt: HostRuntime) -> Result<(), Fail> {
    let alloc = rt.alloc();
    let none = [];
    let skip = [Skip {
        tree: 1,
        first: 3,
        last: 3,
    }];
    let rows = [
        (
            0,
            none.as_slice(),
            true,
            "",
            LENT,
            "end trees 3 findings 0\n",
        ),
        (
            0x1,
            none.as_slice(),
            false,
            "0x5 0x1 malformed\n",
            LENT,
            "finding malformed host 0x5 0x1\nend trees 3 findings 1\n",
        ),
        (
            0x17ff,
            none.as_slice(),
            false,
            "0x5 0x1 frame 0x1 rwx normal owned\n",
            LENT,
            "finding two-owners 0x1 hyp by host 0x0 and host 0x5\nfinding two-owners 0x1 host 0x5 and hyp 0x0\nfinding mapped-table 0x1 of hyp host 0x5\nend trees 3 findings 3\n",
        ),
        (
            0,
            skip.as_slice(),
            false,
            "",
            "",
            "finding no-borrower 0x3 host 0x3\nend trees 3 findings 1\n",
        ),
    ];
    for (poked, skips, sound, line, lent, end) in rows {
        let (dumped, text) = report(alloc, poked, skips, Shape::Lines)?.expect(&rt, "a report");
        let all = format!(in alloc; "{TREES}{line}{HYP}{lent}{GUEST}{end}")?;
        assert!(&rt; (dumped == Dumped::Sound) == sound, "an outcome");
        assert!(&rt; text.as_slice() == all.as_bytes(), "a report");
    }
    Ok(())
}

/// The report for tables in 7.3's words: page 0 is the host's, whose page 3 has the given word, page 1 the hypervisor's, and page 2 has
/// the records of the first frames, of which the third is the given one.
fn recorded(
    alloc: Global,
    word: u64,
    record: u64,
) -> Result<Option<(Dumped, Vec<u8>)>, AllocError> {
    let mut bytes = Vec::new(alloc);
    add_table(&mut bytes, &[0, 0, 0, word])?;
    add_table(&mut bytes, &[0x0040_0000_0000_2743])?;
    add_table(&mut bytes, &[0, 0, 0x3300_0000, record])?;
    let image = bytes.as_slice();
    let Ok(segments) = raw_segments(alloc, &image, 0) else {
        return Ok(None);
    };
    let host = linux_host(Release::V7, false, false);
    let hypervisor = linux_hypervisor(Release::V7, false, false);
    let roots = [root(0, 0, host), root(1, 1, hypervisor)];
    let mut text = Vec::new(alloc);
    match dump_trees(
        alloc,
        &image,
        segments.as_slice(),
        roots.as_slice(),
        Some(0),
        &[],
        Shape::Lines,
        &mut text,
    ) {
        Ok(dumped) => Ok(Some((dumped, text))),
        Err(_) => Ok(None),
    }
}

#[test]
fn names_what_records_deny(rt: HostRuntime) -> Result<(), Fail> {
    let alloc = rt.alloc();
    let hyp = "tree hyp root 0x1 level 3 pages 1 tables 1\n0x0 0x1 frame 0x2 rw- normal owned\n";
    let denied = "finding denied 0x3 host 0x3\nend trees 2 findings 1\n";
    let none = "end trees 2 findings 0\n";
    let rows = [
        (0x37ff, 0x3300_0000, "rwx as-stage-1", denied),
        (0x377f, 0x3300_0000, "r-x as-stage-1", denied),
        (0x0040_0000_0000_377f, 0x3300_0000, "r-- as-stage-1", none),
        (0x37ff, 0x7300_0000, "rwx as-stage-1", denied),
        (0x37ff, 0x7700_0000, "rwx as-stage-1", none),
        (0x37ff, 0, "rwx as-stage-1 owned", none),
    ];
    for (word, record, rights, end) in rows {
        let (_, text) = recorded(alloc, word, record)?.expect(&rt, "a report");
        let host = "tree host root 0x0 level 3 pages 1 tables 1\n0x3 0x1 frame 0x3";
        let all = format!(in alloc; "{host} {rights}\n{hyp}{end}")?;
        assert!(&rt; text.as_slice() == all.as_bytes(), "a report");
    }
    Ok(())
}
