//! Two runs of a tree, and the findings from their claims and another tree's.
use descriptor::State;
use image_findings::{
    Claim, Finding, add_clashes, add_mapped, add_met_twice, add_unborrowed, add_unshared,
};
use std::test::Fail;
use walked_tables::Reached;

fn mapped(tree: u64, frame: u64, state: State) -> Claim {
    Claim {
        tree,
        page: frame,
        frame,
        count: 4,
        state: Some(state),
        named: false,
    }
}

#[test]
fn finds_each(rt: HostRuntime) -> Result<(), Fail> {
    let alloc = rt.alloc();
    let host = mapped(0, 0x100, State::Owned);
    let guest = mapped(2, 0x103, State::Owned);
    let lender = mapped(0, 0x200, State::SharedOwned);
    let hypervisor = mapped(1, 0x200, State::SharedBorrowed);
    let other = mapped(3, 0x201, State::SharedBorrowed);
    let alone = mapped(2, 0x300, State::SharedOwned);
    let claims = [host, guest, lender, hypervisor, other, alone];
    let mut found = Vec::new(alloc);
    add_clashes(claims.as_slice(), &mut found)?;
    add_unborrowed(claims.as_slice(), &mut found)?;
    add_unshared(claims.as_slice(), &mut found)?;
    let table = Reached {
        tree: 1,
        depth: 0,
        number: 0,
        frame: 0x102,
    };
    let again = Reached { tree: 2, ..table };
    add_mapped([table].as_slice(), claims.as_slice(), &mut found)?;
    add_met_twice([table, again].as_slice(), &mut found)?;
    let all = [
        Finding::TwoOwners {
            frame: 0x103,
            first: host,
            second: guest,
        },
        Finding::TwoBorrowers {
            frame: 0x201,
            first: hypervisor,
            second: other,
        },
        Finding::NoBorrower {
            frame: 0x300,
            claim: alone,
        },
        Finding::Unshared {
            frame: 0x204,
            claim: other,
        },
        Finding::MappedTable { table, claim: host },
        Finding::MetTwice {
            first: table,
            second: again,
        },
    ];
    assert!(&rt; found.as_slice() == all.as_slice(), "findings");
    Ok(())
}
