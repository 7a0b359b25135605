//! A small core, as it is and with one byte of it changed.
use memory_image::{
    Fault, Refused, Segment, Why, core_segments, page_buffer, raw_segments, read_page,
};
use std::alloc::{AllocError, Global};
use std::test::Fail;

fn add(bytes: &mut Vec<u8>, more: &[u8]) -> Result<(), AllocError> {
    bytes.extend_from_slice(more)?;
    Ok(())
}

/// A program header.
fn add_header(bytes: &mut Vec<u8>, kind: u32, segment: Segment) -> Result<(), AllocError> {
    add(bytes, &kind.to_le_bytes())?;
    add(bytes, &[0; 4])?;
    add(bytes, &segment.at.to_le_bytes())?;
    add(bytes, &segment.address.to_le_bytes())?;
    add(bytes, &segment.address.to_le_bytes())?;
    add(bytes, &segment.count.to_le_bytes())?;
    add(bytes, &segment.count.to_le_bytes())?;
    add(bytes, &[0; 8])
}

const NOTE: Segment = Segment {
    address: 0,
    at: 0,
    count: 16,
};

/// It has all of page 0x40001, and the second half of page 0x40000.
const FIRST: Segment = Segment {
    address: 0x4000_0800,
    at: 232,
    count: 0x1800,
};

const SECOND: Segment = Segment {
    address: 0x4000_2000,
    at: 232,
    count: 0x100,
};

/// A core with a note and two segments.
fn small_core(alloc: Global) -> Result<Vec<u8>, AllocError> {
    let mut bytes = Vec::new(alloc);
    add(&mut bytes, b"\x7fELF\x02\x01\x01\0\0\0\0\0\0\0\0\0")?;
    add(&mut bytes, &[4, 0, 183, 0, 1, 0, 0, 0])?;
    add(&mut bytes, &0u64.to_le_bytes())?;
    add(&mut bytes, &64u64.to_le_bytes())?;
    add(&mut bytes, &[0; 12])?;
    add(&mut bytes, &[64, 0, 56, 0, 3, 0, 0, 0, 0, 0, 0, 0])?;
    add_header(&mut bytes, 4, NOTE)?;
    add_header(&mut bytes, 1, FIRST)?;
    add_header(&mut bytes, 1, SECOND)?;
    for i in 0..0x1800u64 {
        add(&mut bytes, &[(i % 251) as u8])?;
    }
    Ok(bytes)
}

/// The answer for the core with one byte changed, of which `count` bytes are there.
fn answer(
    alloc: Global,
    at: usize,
    value: u8,
    count: usize,
) -> Result<Option<Refused>, AllocError> {
    let mut bytes = small_core(alloc)?;
    if at < bytes.len() {
        bytes[at] = value;
    }
    bytes.truncate(count);
    let image = bytes.as_slice();
    Ok(core_segments(alloc, &image).err())
}

#[test]
fn reads_a_page(rt: HostRuntime) -> Result<(), Fail> {
    let alloc = rt.alloc();
    let bytes = small_core(alloc)?;
    let image = bytes.as_slice();
    let segments = core_segments(alloc, &image).ok().expect(&rt, "a core");
    assert!(&rt;
        segments.as_slice() == [FIRST, SECOND].as_slice(),
        "segments"
    );
    let mut buffer = page_buffer(alloc)?;
    let page = read_page(
        alloc,
        &image,
        segments.as_slice(),
        0x40001,
        buffer.as_mut_slice(),
    );
    let words = page.ok().expect(&rt, "a page").expect(&rt, "a whole page");
    assert!(&rt; words.len() == 512, "512 words");
    // the bytes 40 to 47, since 2048 % 251 is 40
    assert!(&rt; words[0] == 0x2f2e_2d2c_2b2a_2928, "the first word");
    let half = read_page(
        alloc,
        &image,
        segments.as_slice(),
        0x40000,
        buffer.as_mut_slice(),
    );
    assert!(&rt; half.ok().expect(&rt, "an answer").is_none(), "half a page");
    let raw = raw_segments(alloc, &image, 0x8000_0000)
        .ok()
        .expect(&rt, "raw");
    let other = read_page(
        alloc,
        &image,
        raw.as_slice(),
        0x80000,
        buffer.as_mut_slice(),
    );
    assert!(&rt;
        other.ok().expect(&rt, "an answer").is_some(),
        "the first raw page"
    );
    let high = raw_segments(alloc, &image, 0xf_ffff_ffff_f000).err();
    let past = Refused::Wrong(Fault {
        at: 0,
        why: Why::PastLimit,
    });
    assert!(&rt; high == Some(past), "past the limit");
    Ok(())
}

#[test]
fn names_what_is_wrong(rt: HostRuntime) -> Result<(), Fail> {
    let alloc = rt.alloc();
    // a byte, its value, how much of the file there is, and the fault
    let rows = [
        (1, b'e', 9000, 0, Why::NotElf),
        (4, 1, 9000, 4, Why::NotElf64),
        (5, 2, 9000, 5, Why::NotLittleEndian),
        (16, 2, 9000, 16, Why::NotCore),
        (18, 62, 9000, 18, Why::OtherMachine),
        (54, 57, 9000, 54, Why::HeaderSize),
        (57, 0x20, 9000, 56, Why::TooManyHeaders),
        (37, 1, 9000, 32, Why::Truncated),
        (0, 0x7f, 50, 0, Why::Truncated),
        (0, 0x7f, 231, 32, Why::Truncated),
        (154, 1, 9000, 128, Why::Truncated),
        (0, 0x7f, 6375, 128, Why::Truncated),
        (150, 0x10, 9000, 144, Why::PastLimit),
        (201, 0x1f, 9000, 200, Why::Overlap),
    ];
    for (at, value, count, place, why) in rows {
        let refused = answer(alloc, at, value, count)?;
        assert!(&rt;
            refused == Some(Refused::Wrong(Fault { at: place, why })),
            "a fault"
        );
    }
    Ok(())
}

#[test]
fn names_other_forms(rt: HostRuntime) -> Result<(), Fail> {
    let alloc = rt.alloc();
    for (name, why) in [
        (b"KDUMP   \x06\0\0\0", Why::KdumpCompressed),
        (b"makedumpfile", Why::Flattened),
    ] {
        let mut bytes = Vec::new(alloc);
        add(&mut bytes, name)?;
        add(&mut bytes, &[0; 64])?;
        let image = bytes.as_slice();
        let refused = core_segments(alloc, &image).err();
        assert!(&rt;
            refused == Some(Refused::Wrong(Fault { at: 0, why })),
            "a form"
        );
    }
    Ok(())
}
