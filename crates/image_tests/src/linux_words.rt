//! Words of Linux with their meanings. If nothing else is said, a word is what the release's own functions make
//! (hyp_set_prot_attr, stage2_set_prot_attr, kvm_init_valid_leaf_pte, kvm_init_table_pte), compiled as a program.
use descriptor::{Desc, Frame, Kind, Level, Owner, Prot, State};
use std::process::Abort;
use table_words::{
    Access, Decoded, Execute, Guest, Mapping, Memory, Profile, Release, beyond_model, decode,
    entry, linux_guest, linux_host, linux_hypervisor, model,
};

/// Compares what a word of level 3 says.
fn expect_page(rt: &impl Abort, profile: &Profile, word: u64, wanted: Decoded) {
    assert!(rt; decode(profile, Level::Three, word) == wanted, "{word:#x}");
}

/// Compares what a word of a level says.
fn expect(rt: &impl Abort, profile: &Profile, level: Level, word: u64, wanted: Decoded) {
    assert!(rt; decode(profile, level, word) == wanted, "{word:#x}");
}

/// A mapping of plain memory, for everybody or nobody to execute.
fn plain(frame: u64, access: Access, execute: Execute, state: Option<State>) -> Mapping {
    Mapping {
        frame: Frame(frame),
        access,
        execute,
        memory: Memory::WriteBack,
        state,
        guarded: false,
        aged: false,
    }
}

fn page(access: Access, execute: Execute, state: Option<State>) -> Decoded {
    Decoded::Leaf(plain(0x40210, access, execute, state))
}

#[test]
fn hypervisor_of_6(rt: HostRuntime) {
    let profile = linux_hypervisor(Release::V6, false, false);
    let owned = Some(State::Owned);
    for (word, access, execute, state) in [
        (
            0x0040_0000_4021_0743,
            Access::ReadWrite,
            Execute::Nobody,
            owned,
        ),
        (
            0x0040_0000_4021_07c3,
            Access::ReadOnly,
            Execute::Nobody,
            owned,
        ),
        (
            0x0000_0000_4021_07c3,
            Access::ReadOnly,
            Execute::Everybody,
            owned,
        ),
        (
            0x0140_0000_4021_0743,
            Access::ReadWrite,
            Execute::Nobody,
            Some(State::SharedBorrowed),
        ),
        (
            0x00c0_0000_4021_07c3,
            Access::ReadOnly,
            Execute::Nobody,
            Some(State::SharedOwned),
        ),
    ] {
        expect_page(&rt, &profile, word, page(access, execute, state));
    }
    // the same page with a state that is none, with writes for EL0 (hVHE's form), not shareable, with bit 53
    for word in [
        0x01c0_0000_4021_0743,
        0x0040_0000_4021_0703,
        0x0040_0000_4021_0443,
        0x0060_0000_4021_0743,
    ] {
        expect_page(&rt, &profile, word, Decoded::Malformed);
    }
}

#[test]
fn hypervisor_with_hvhe(rt: HostRuntime) {
    let six = linux_hypervisor(Release::V6, true, false);
    let seven = linux_hypervisor(Release::V7, true, false);
    let owned = Some(State::Owned);
    for (profile, word, access, execute, state) in [
        (
            six,
            0x0040_0000_4021_0703,
            Access::ReadWrite,
            Execute::Nobody,
            owned,
        ),
        (
            six,
            0x0040_0000_4021_0783,
            Access::ReadOnly,
            Execute::Nobody,
            owned,
        ),
        (
            seven,
            0x0060_0000_4021_0703,
            Access::ReadWrite,
            Execute::Nobody,
            None,
        ),
        (
            seven,
            0x0060_0000_4021_0783,
            Access::ReadOnly,
            Execute::Nobody,
            None,
        ),
        (
            seven,
            0x0000_0000_4021_0783,
            Access::ReadOnly,
            Execute::Everybody,
            None,
        ),
        (
            seven,
            0x0040_0000_4021_0783,
            Access::ReadOnly,
            Execute::PrivilegedAlone,
            None,
        ),
        (
            seven,
            0x0020_0000_4021_0783,
            Access::ReadOnly,
            Execute::UnprivilegedAlone,
            None,
        ),
    ] {
        expect_page(&rt, &profile, word, page(access, execute, state));
    }
}

#[test]
fn hypervisor_of_7(rt: HostRuntime) {
    let profile = linux_hypervisor(Release::V7, false, false);
    let text = plain(0x40210, Access::ReadOnly, Execute::Everybody, None);
    let device = plain(0x9000, Access::ReadWrite, Execute::Nobody, None);
    let block = plain(0x40200, Access::ReadWrite, Execute::Nobody, None);
    for (level, word, wanted) in [
        // with BTI
        (
            Level::Three,
            0x0004_0000_4021_07c3,
            Decoded::Leaf(Mapping {
                guarded: true,
                ..text
            }),
        ),
        (
            Level::Three,
            0x0040_0000_0900_0753,
            Decoded::Leaf(Mapping {
                memory: Memory::Registers,
                ..device
            }),
        ),
        (Level::Two, 0x0040_0000_4020_0741, Decoded::Leaf(block)),
        // that block with its valid bit cleared, by fixmap_clear_slot
        (Level::Two, 0x0040_0000_4020_0740, Decoded::Cleared(block)),
        (
            Level::Two,
            0x0000_0000_4fac_9003,
            Decoded::Table(Frame(0x4fac9)),
        ),
        // no state in 7.3's words; a block that isn't aligned; a table at the last level; the word 2
        (Level::Three, 0x0140_0000_4021_0743, Decoded::Malformed),
        (Level::Two, 0x0040_0000_4021_0741, Decoded::Malformed),
        (Level::Three, 0x0000_0000_4fac_9003, Decoded::Malformed),
        (Level::Two, 0x2, Decoded::Malformed),
        (Level::Two, 0x0, Decoded::Unmapped),
    ] {
        expect(&rt, &profile, level, word, wanted);
    }
}

#[test]
fn host_of_6(rt: HostRuntime) {
    let profile = linux_host(Release::V6, true, false);
    let memory = plain(
        0x80000,
        Access::ReadWrite,
        Execute::Everybody,
        Some(State::Owned),
    );
    let device = plain(
        0x8000,
        Access::ReadWrite,
        Execute::Nobody,
        Some(State::Owned),
    );
    let shared = plain(
        0x40210,
        Access::ReadWrite,
        Execute::Everybody,
        Some(State::SharedOwned),
    );
    for (level, word, wanted) in [
        (Level::One, 0x0000_0000_8000_07fd, Decoded::Leaf(memory)),
        // PKVM_HOST_MMIO_PROT: Normal, as for memory
        (Level::Two, 0x0040_0000_0800_07fd, Decoded::Leaf(device)),
        (Level::Three, 0x0080_0000_4021_07ff, Decoded::Leaf(shared)),
        // kvm_init_invalid_leaf_owner of PKVM_ID_HYP; KVM_INVALID_PTE_LOCKED
        (
            Level::Three,
            0x4,
            Decoded::Annotated {
                owner: Owner(1),
                guest: None,
            },
        ),
        (Level::Two, 0x400, Decoded::Locked),
        // both; the access flag clear
        (Level::Three, 0x404, Decoded::Malformed),
        (Level::Three, 0x0080_0000_4021_03ff, Decoded::Malformed),
    ] {
        expect(&rt, &profile, level, word, wanted);
    }
}

#[test]
fn host_of_7(rt: HostRuntime) {
    let profile = linux_host(Release::V7, false, false);
    let page = plain(0x40210, Access::ReadWrite, Execute::Everybody, None);
    let passed = Mapping {
        memory: Memory::FromStage1,
        ..page
    };
    for (word, wanted) in [
        (0x0000_0000_4021_07ff, Decoded::Leaf(passed)),
        // KVM_HOST_INVALID_PTE_TYPE_DONATION with PKVM_ID_HYP
        (
            0x2000_0000_0000_0002,
            Decoded::Annotated {
                owner: Owner(1),
                guest: None,
            },
        ),
        // with PKVM_ID_GUEST, handle 0x1003 (HANDLE_OFFSET and 3), gfn 0x80301
        (
            0x2000_0080_3011_0034,
            Decoded::Annotated {
                owner: Owner(2),
                guest: Some(Guest {
                    handle: 0x1003,
                    gfn: 0x80301,
                }),
            },
        ),
        // KVM_INVALID_PTE_TYPE_LOCKED
        (0x1000_0000_0000_0000, Decoded::Locked),
        // the hypervisor's with a handle, a third owner, 6.12's annotation, poison, a state
        (0x2000_0000_0000_0012, Decoded::Malformed),
        (0x2000_0000_0000_0006, Decoded::Malformed),
        (0x4, Decoded::Malformed),
        (0x3000_0000_0000_0000, Decoded::Malformed),
        (0x0080_0000_4021_07ff, Decoded::Malformed),
    ] {
        expect_page(&rt, &profile, word, wanted);
    }
    let forced = linux_host(Release::V7, true, false);
    expect_page(&rt, &forced, 0x0000_0000_4021_07df, Decoded::Leaf(passed));
    expect_page(&rt, &forced, 0x0000_0000_4021_07ff, Decoded::Malformed);
}

#[test]
fn guest_of_7(rt: HostRuntime) {
    let profile = linux_guest(Release::V7, false, false);
    let page = plain(
        0x40210,
        Access::ReadWrite,
        Execute::Everybody,
        Some(State::SharedBorrowed),
    );
    let owned = Mapping {
        state: Some(State::Owned),
        ..page
    };
    for (word, mapping) in [
        (0x0100_0000_4021_07ff, page),
        (0x0000_0000_4021_07ff, owned),
        // kvm_pgtable_stage2_test_clear_young cleared bit 10
        (0x0100_0000_4021_03ff, Mapping { aged: true, ..page }),
        (
            0x0060_0000_4021_077f,
            Mapping {
                access: Access::ReadOnly,
                execute: Execute::PrivilegedAlone,
                ..owned
            },
        ),
        (
            0x0020_0000_4021_077f,
            Mapping {
                access: Access::ReadOnly,
                execute: Execute::UnprivilegedAlone,
                ..owned
            },
        ),
        (
            0x0040_0000_4021_073f,
            Mapping {
                access: Access::Neither,
                execute: Execute::Nobody,
                ..owned
            },
        ),
        (
            0x0040_0000_4021_07bf,
            Mapping {
                access: Access::WriteOnly,
                execute: Execute::Nobody,
                ..owned
            },
        ),
        (
            0x0040_0000_4021_07d7,
            Mapping {
                execute: Execute::Nobody,
                memory: Memory::Uncached,
                ..owned
            },
        ),
    ] {
        expect_page(&rt, &profile, word, Decoded::Leaf(mapping));
    }
    // KVM_GUEST_INVALID_PTE_TYPE_POISONED; 7.3 annotates nothing with it
    expect_page(&rt, &profile, 0x3000_0000_0000_0000, Decoded::Poisoned);
    expect_page(&rt, &profile, 0x3000_0080_3011_0034, Decoded::Malformed);
    let forced = linux_guest(Release::V7, true, false);
    expect_page(&rt, &forced, 0x0000_0000_4021_07db, Decoded::Leaf(owned));
}

#[test]
fn addresses_of_52_bits(rt: HostRuntime) {
    // at 0x7000040210000 and 0x700004fac9000: bits 51:50 are 01, bits 49:48 11
    let hypervisor = linux_hypervisor(Release::V7, false, true);
    let data = plain(0x70_0004_0210, Access::ReadWrite, Execute::Nobody, None);
    expect_page(&rt, &hypervisor, 0x0043_0000_4021_0543, Decoded::Leaf(data));
    let table = Decoded::Table(Frame(0x70_0004_fac9));
    expect(&rt, &hypervisor, Level::Zero, 0x0003_0000_4fac_9103, table);
    let host = linux_host(Release::V6, false, true);
    let memory = Mapping {
        execute: Execute::Everybody,
        state: Some(State::Owned),
        ..data
    };
    expect_page(&rt, &host, 0x0003_0000_4021_05ff, Decoded::Leaf(memory));
    let narrow = linux_host(Release::V6, false, false);
    expect_page(&rt, &narrow, 0x0003_0000_4021_05ff, Decoded::Malformed);
}

#[test]
fn the_models_part(rt: HostRuntime) {
    let borrowed = Desc::Leaf {
        frame: Frame(0x40210),
        prot: Prot::RWX,
        kind: Kind::Normal,
        state: State::SharedBorrowed,
    };
    let own = decode(&model(), Level::Three, 0x0100_0000_4021_07ff);
    assert!(&rt; entry(&own, State::Owned) == Some(borrowed));
    let aged = decode(
        &linux_guest(Release::V7, false, false),
        Level::Three,
        0x0100_0000_4021_03ff,
    );
    assert!(&rt; entry(&aged, State::Owned) == Some(borrowed));
    assert!(&rt; beyond_model(&aged).aged && !beyond_model(&own).aged);
}
