//! A world that makes steps, is kept as lists, walked and compared, and then some of its words are poked.
ghost use Rattle.std.specs.Prelude.{◌≡◌, ◌<◌, None, replicate};

use super::booted;
use call_table::{Reply, Step, Value};
use descriptor::{Frame, Kind, Prot, State};
use ghost_judge::audit::audit_lists;
use ghost_judge::disagreement::{Disagreement, TreeOf};
use ghost_oracle::pokes::no_pokes;
use ghost_oracle::raw::{RawGuest, Which};
use ghost_trees::runs;
use page_state::{Entry, Page};
use std::alloc::Global;
use std::process::Abort;
use table_tree::Reads;
use world::{RawWorld, World};

/// The indices that lead to the word of page 0x40100.
const PATH: [u16; 3] = [1, 0, 0x100];

/// The host's entry of page 0x40100, which it shares.
const SHARED: Entry = Entry::Leaf {
    frame: Frame(0x40100),
    prot: Prot::RWX,
    kind: Kind::Normal,
    state: State::SharedOwned,
};

/// Where a walk finds nothing at that page.
const LOST: Disagreement = Disagreement::Map {
    tree: TreeOf::Host,
    page: 0x40100,
    kept: SHARED,
    walked: Entry::Unmapped,
};

/// Shares the page.
fn share(rt: &impl Abort, alloc: Global, world: &mut World<Global>)
    requires { 0 < world.old.parts.layout.config.cpus }
{
    let steps = [(0, Step::ShareHyp { pfn: 0x40100 })];
    let replies = world.run(alloc, steps.as_slice()).expect(rt, "memory");
    assert!(rt; replies.as_slice() == [Reply::Done(Value::Nothing)].as_slice());
}

/// Compares the entry of the page that the world keeps.
fn expect_shared(rt: &impl Abort, alloc: Global, world: &World<Global>) {
    let kept = world.to_ghost(alloc).expect(rt, "memory");
    let entry = runs::at(kept.lists().shared.host.runs.as_slice(), Page(0x40100));
    drop(kept);
    assert!(rt; entry == SHARED);
}

/// Shares the page, and looks at what the world keeps and what a walk finds.
fn expect_share(rt: &impl Abort, alloc: Global, world: &mut World<Global>)
    requires { 0 < world.old.parts.layout.config.cpus }
{
    share(rt, alloc, world);
    expect_shared(rt, alloc, world);
    assert!(rt;
        world
            .audit(alloc, &mut Reads::new())
            .expect(rt, "memory")
            .is_none()
    );
}

/// Sets the page's word in the host's tree.
fn poke_page(
    rt: &impl Abort,
    world: World<Global>,
    places: Vec<Option<RawGuest<Global>>>,
    word: u64,
) -> RawWorld<Global>
    requires { places.items ≡ replicate 64 None }
{
    let poked = world.poke(places, Which::Host, &PATH, word);
    poked.ok().expect(rt, "a word there")
}

/// The same in a world in which nothing was poked yet.
fn poke_first(rt: &impl Abort, alloc: Global, world: World<Global>, word: u64) -> RawWorld<Global> {
    let places = no_pokes(alloc).expect(rt, "memory");
    poke_page(rt, world, places, word)
}

/// The same in a world that was poked.
fn poke_again(rt: &impl Abort, world: RawWorld<Global>, word: u64) -> RawWorld<Global> {
    let poked = world.poke(Which::Host, &PATH, word);
    poked.ok().expect(rt, "a word there")
}

/// Compares what a poked world keeps with what a walk of its words finds.
fn difference(rt: &impl Abort, alloc: Global, world: &RawWorld<Global>) -> Option<Disagreement> {
    let kept = world.to_ghost(alloc).expect(rt, "memory");
    let walked = world.recompute(alloc).expect(rt, "memory");
    let found = audit_lists(&kept, &walked);
    drop((kept, walked));
    found
}

/// Compares that difference.
fn expect_difference(
    rt: &impl Abort,
    alloc: Global,
    world: &RawWorld<Global>,
    wanted: Option<Disagreement>,
) {
    assert!(rt; difference(rt, alloc, world) == wanted);
}

/// The page's word in the host's tree.
fn word_of(world: &World<Global>) -> u64 {
    let word = world.parts().shared.host.tree().word_at(&PATH);
    word.unwrap_or(0)
}

/// Compares what differs in a world that lost the page's word, and once it has this word again.
fn expect_lost(rt: &impl Abort, alloc: Global, poked: RawWorld<Global>, word: u64) {
    expect_difference(rt, alloc, &poked, Some(LOST));
    let again = poke_again(rt, poked, word);
    expect_difference(rt, alloc, &again, None);
    drop(again);
}

#[test]
fn finds_a_poked_word(rt: HostRuntime) {
    let alloc = rt.alloc();
    let mut world = booted(&rt, alloc, 3);
    assert!(rt; world.cpus() > 0);
    expect_share(&rt, alloc, &mut world);
    let word = word_of(&world);
    let poked = poke_first(&rt, alloc, world, 0);
    expect_lost(&rt, alloc, poked, word);
}
