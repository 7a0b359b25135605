//! Words of descriptors, by level.
use descriptor::{Desc, Frame, Kind, Level, Owner, Prot, State, block_pages_of, decode, encode};
use std::process::Abort;

fn leaf(frame: u64, prot: Prot, kind: Kind, state: State) -> Desc {
    Desc::Leaf {
        frame: Frame(frame),
        prot,
        kind,
        state,
    }
}

fn owned(frame: u64) -> Desc {
    leaf(frame, Prot::RWX, Kind::Normal, State::Owned)
}

/// Compares what a word says at a level.
fn expect_decoded(rt: &impl Abort, level: Level, word: u64, desc: Desc) {
    assert!(rt;
        decode(level, word) == desc,
        "{word:#x} over {} pages",
        block_pages_of(level)
    );
}

/// Compares the word of a descriptor at a level, or that it has none there.
fn expect_encoded(rt: &impl Abort, level: Level, desc: Desc, word: Option<u64>) {
    assert!(rt;
        encode(level, &desc) == word,
        "{word:?} over {} pages",
        block_pages_of(level)
    );
}

#[test]
fn decodes_at_each_level(rt: HostRuntime) {
    for (level, word, desc) in [
        (
            Level::Three,
            0x0080_0000_4000_07ff,
            leaf(0x40000, Prot::RWX, Kind::Normal, State::SharedOwned),
        ),
        (Level::Three, 0x0000_0000_4000_07fd, Desc::Malformed),
        (Level::Two, 0x0000_0000_4000_07fd, owned(0x40000)),
        (Level::One, 0x0000_0000_4000_07fd, owned(0x40000)),
        (Level::One, 0x0000_0000_4020_07fd, Desc::Malformed),
        (Level::Two, 0x104, Desc::Annotated(Owner(65))),
        (Level::Two, 0x400, Desc::Malformed),
        (Level::Two, 0x2, Desc::Malformed),
        (Level::Three, 0x8, Desc::Annotated(Owner(2))),
    ] {
        expect_decoded(&rt, level, word, desc);
    }
}

#[test]
fn reads_and_writes_pages(rt: HostRuntime) {
    for (word, prot, state) in [
        (0x0000_0000_4010_07ff, Prot::RWX, State::Owned),
        (0x0080_0000_4010_07ff, Prot::RWX, State::SharedOwned),
        (0x0100_0000_4010_07ff, Prot::RWX, State::SharedBorrowed),
        (0x0040_0000_4010_07ff, Prot::RW, State::Owned),
        (0x0140_0000_4010_07ff, Prot::RW, State::SharedBorrowed),
        (0x0100_0000_4010_077f, Prot::RX, State::SharedBorrowed),
        (0x0140_0000_4010_077f, Prot::R, State::SharedBorrowed),
        (0x0040_0000_4010_077f, Prot::R, State::Owned),
    ] {
        let desc = leaf(0x40100, prot, Kind::Normal, state);
        expect_decoded(&rt, Level::Three, word, desc);
        expect_encoded(&rt, Level::Three, desc, Some(word));
    }
}

#[test]
fn reads_and_writes_device_pages(rt: HostRuntime) {
    for (word, prot) in [
        (0x0040_0000_0900_07c7, Prot::RW),
        (0x0040_0000_0900_0747, Prot::R),
        (0x0000_0000_0900_07c7, Prot::RWX),
    ] {
        let desc = leaf(0x9000, prot, Kind::Device, State::Owned);
        expect_decoded(&rt, Level::Three, word, desc);
        expect_encoded(&rt, Level::Three, desc, Some(word));
    }
    let block = leaf(0x9000, Prot::RW, Kind::Device, State::Owned);
    expect_decoded(&rt, Level::Two, 0x0040_0000_0900_07c5, block);
}

#[test]
fn refuses_malformed_pages(rt: HostRuntime) {
    for word in [
        0x0080_0000_4010_07fd,
        0x0080_0000_4010_03ff,
        0x0080_0000_4010_06ff,
        0x0080_0000_4010_07df,
        0x0080_0000_4010_07bf,
        0x0080_0000_4010_0fff,
        0x0280_0000_4010_07ff,
        0x0081_0000_4010_07ff,
        0x0180_0000_4010_07ff,
        0x400,
        0x6,
    ] {
        expect_decoded(&rt, Level::Three, word, Desc::Malformed);
    }
}

#[test]
fn refuses_unaligned_block(rt: HostRuntime) {
    expect_encoded(&rt, Level::Two, owned(0x40100), None);
    assert_eq!(rt; block_pages_of(Level::Two), 512);
}

#[test]
fn has_no_leaf_at_level_0(rt: HostRuntime) {
    for (word, desc) in [
        (0, Desc::Unmapped),
        (0x104, Desc::Annotated(Owner(65))),
        (0x4060_2003, Desc::Table(Frame(0x40602))),
    ] {
        expect_decoded(&rt, Level::Zero, word, desc);
        expect_encoded(&rt, Level::Zero, desc, Some(word));
    }
    expect_decoded(&rt, Level::Zero, 0x7fd, Desc::Malformed);
    expect_encoded(&rt, Level::Zero, owned(0), None);
    assert_eq!(rt; block_pages_of(Level::Zero), 0x800_0000);
}
