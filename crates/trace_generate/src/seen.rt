//! What a state holds that calls can use, as chance picks it.
use crate::chance::below;
use call_table::VmId;
use ghost_spec::cpu::GhostCpu;
use ghost_spec::lists::GhostLists;
use ghost_spec::parts::{GhostGuest, GhostPhase, GhostSlot, GhostStand};
use page_state::{Owner, Page, PageRange, Prot, RegionKind, Row, Run, Usage};
use rand_pcg::Pcg32;

/// The most slots that a generated trace uses.
pub(crate) const SLOTS: u64 = 6;

/// The row of a frame that isn't listed.
const PLAIN: Row = Row {
    owner: Owner(0),
    lent: None,
    usage: Usage::Plain,
};

/// How often a run is drawn before none is found.
const DRAWS: usize = 6;

/// A CPU's own state: its loaded vCPU, its hand and its ticket.
pub(crate) fn own_state(lists: &GhostLists, cpu: u64) -> GhostCpu {
    match lists.cpus.get(cpu as usize) {
        Some(own) => *own,
        None => GhostCpu::NONE,
    }
}

/// A run of owner rows, or a gap between them: memory whose rows aren't listed is the host's. None if there is no
/// memory.
pub(crate) fn picked_rows(lists: &GhostLists, chance: &mut Pcg32) -> Option<run_list::Run<Row>> {
    let runs = lists.shared.rows.runs();
    let gaps = Gaps::before(lists, u64::MAX).count;
    let at = picked_place(chance, runs.len().saturating_add(gaps as usize))?;
    if at < runs.len() {
        return runs.get(at).copied();
    }
    let number = at.saturating_sub(runs.len()) as u64;
    let pages = Gaps::before(lists, number).next?;
    Some(run_list::Run {
        pages,
        value: PLAIN,
    })
}

/// Gaps between runs of owner rows, in memory.
#[derive(Clone, Copy)]
struct Gaps {
    /// The number of gaps found before the one sought.
    count: u64,
    /// The gap sought, if there are enough gaps.
    next: Option<PageRange>,
}

impl Gaps {
    /// The gaps before the one of a number, from 0 on, and that gap.
    fn before(lists: &GhostLists, number: u64) -> Gaps {
        let mut found = Gaps {
            count: 0,
            next: None,
        };
        for region in lists.layout.map.regions() {
            if region.kind == RegionKind::Memory {
                found.add_of(lists.shared.rows.runs(), region.pages, number);
            }
        }
        found
    }

    /// Adds the gaps of a region. The runs are in order.
    fn add_of(&mut self, runs: &[run_list::Run<Row>], region: PageRange, number: u64) {
        let end = region.first.0.saturating_add(region.count);
        let mut from = region.first.0;
        for run in runs {
            let first = run.pages.first.0;
            self.add(from, first.min(end), number);
            from = from.max(first.saturating_add(run.pages.count));
        }
        self.add(from, end, number);
    }

    /// Adds the pages from one up to another, if there are any.
    fn add(&mut self, from: u64, to: u64, number: u64) {
        if from >= to || self.next.is_some() {
            return;
        }
        if self.count == number {
            self.next = Some(PageRange {
                first: Page(from),
                count: to.saturating_sub(from),
            });
        } else {
            self.count = self.count.saturating_add(1);
        }
    }
}

/// A run of a guest's map. None if nothing is mapped.
pub(crate) fn picked_run(guest: &GhostGuest, chance: &mut Pcg32) -> Option<Run> {
    let at = picked_place(chance, guest.tree.runs.len())?;
    guest.tree.runs.get(at).copied()
}

/// A place of a list of this length. None of an empty one.
fn picked_place(chance: &mut Pcg32, length: usize) -> Option<usize> {
    if length == 0 {
        return None;
    }
    Some(below(chance, length as u64) as usize)
}

/// Whether frames of a row are the host's, lent to nobody and in no use.
pub(crate) fn is_hosts(row: Row) -> bool {
    row.owner == Owner(0) && row.lent.is_none() && row.usage == Usage::Plain
}

/// A run of frames that are the host's, lent to nobody and in no use.
pub(crate) fn picked_hosts(lists: &GhostLists, chance: &mut Pcg32) -> Option<PageRange> {
    for _ in 0..DRAWS {
        let run = picked_rows(lists, chance)?;
        if is_hosts(run.value) {
            return Some(run.pages);
        }
    }
    None
}

/// A page of a range; its first page if the range is empty.
pub(crate) fn picked_page(range: PageRange, chance: &mut Pcg32) -> u64 {
    if range.count == 0 {
        return range.first.0;
    }
    range.first.0.saturating_add(below(chance, range.count))
}

/// At most `most` pages of a range, and at least one: usually from its first page on, so that runs stay long.
pub(crate) fn picked_part(range: PageRange, most: u64, chance: &mut Pcg32) -> PageRange {
    let count = below(chance, most.max(1))
        .saturating_add(1)
        .min(range.count);
    let first = if below(chance, 3) == 0 {
        let rest = PageRange {
            first: range.first,
            count: range.count.saturating_sub(count),
        };
        Page(picked_page(rest, chance))
    } else {
        range.first
    };
    PageRange { first, count }
}

/// The VM of a slot, in whatever state it is.
pub(crate) fn vm_of(slot: u64, entry: &GhostSlot) -> VmId {
    VmId {
        slot,
        generation: entry.generation,
    }
}

/// A VM that is open, among those of the slots that are used.
pub(crate) fn picked_open(lists: &GhostLists, chance: &mut Pcg32) -> Option<VmId> {
    for _ in 0..DRAWS {
        let slot = below(chance, SLOTS);
        let entry = lists.vms.get(slot as usize)?;
        if entry.stand == GhostStand::Opened {
            return Some(vm_of(slot, entry));
        }
    }
    None
}

/// The guest of a VM, unless it is Empty.
pub(crate) fn guest_of(lists: &GhostLists, vm: VmId) -> Option<&GhostGuest> {
    let guest = lists.guests.get(vm.slot as usize)?;
    if guest.phase == GhostPhase::Empty {
        return None;
    }
    Some(guest)
}

/// Rights.
pub(crate) fn picked_rights(chance: &mut Pcg32) -> Prot {
    match below(chance, 4) {
        0 => Prot::R,
        1 => Prot::RW,
        2 => Prot::RX,
        _ => Prot::RWX,
    }
}
