//! What a line of a trace can say.
use call_table::Step;
use page_state::PageRange;

/// A line that can be carried out.
#[derive(Clone, Copy)]
pub enum Line {
    /// What is set before the boot.
    Setting(Setting),
    /// The boot.
    Boot,
    /// A call of a CPU.
    Step { cpu: u64, step: Step },
    /// A question about a booted world.
    Query(Query),
    /// Another word in place of one of a tree.
    Poke(Poke),
    /// The CPUs go on at once.
    Start,
}

/// A setting of a trace.
#[derive(Clone, Copy)]
pub enum Setting {
    /// The width of input addresses in bits.
    Geometry(u64),
    /// The number of CPUs.
    Cpus(u64),
    /// The calls of a log.
    Log(u64),
    /// A region of memory.
    Memory(PageRange),
    /// A region of device pages.
    Device(PageRange),
    /// The carve-out.
    Carve(PageRange),
}

/// A question.
#[derive(Clone, Copy)]
pub enum Query {
    /// The word on a page's path, at a level of 0 to 3.
    Word {
        tree: TreeName,
        page: u64,
        level: u64,
    },
    /// The number of free frames of the shared pool.
    FreeShared,
    /// The number of free frames of the pool of the guest in a slot, 0 to 63.
    FreeGuest(u64),
    /// The maplets of a tree.
    Show(TreeName),
}

/// A word that is set, on a page's path at a level of 0 to 3.
#[derive(Clone, Copy)]
pub struct Poke {
    pub tree: TreeName,
    pub page: u64,
    pub level: u64,
    pub word: u64,
}

/// A tree that a line names.
#[derive(Clone, Copy)]
pub enum TreeName {
    Host,
    Hyp,
    /// That of the guest in a slot, 0 to 63.
    Guest(u64),
}
