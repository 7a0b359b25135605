//! Booting a world.
ghost use Rattle.std.specs.Prelude.{◌≡◌, ◌+◌, ◌<◌, ◌≤◌, ◌^◌, ◌↔◌, ◌∷◌, All, IsTrue, IfOk, OnErr, MatchOption, MatchResult, vec_len, length, drop};
ghost use Rattle.hyp_pool.specs.Pools.{IsPool};
ghost use Rattle.page_state.specs.Trees.{frames_from, root_tree};
ghost use Rattle.reference_model.specs.model.Boot.{IsCarveEnough, booted as booted_of, pool_row as pool_row_of};
ghost use Rattle.reference_model.specs.help.ChangeLaws.{Fits};
ghost use Rattle.reference_model.specs.help.Conditions.{IsUsable};
ghost use Rattle.reference_model.specs.model.State.{no_vms};
ghost use Rattle.part_types.specs.Apart.{IsApart};
ghost use Rattle.part_types.specs.Logs.{IsNewLog};
ghost use Rattle.part_types.specs.MemoryRows.{HasMemoryRows};
ghost use Rattle.part_types.specs.Numbers.{AreNumbered};
ghost use Rattle.part_types.specs.View.{depth_of, shared_of, vm_slots};
ghost use Rattle.page_state.specs.Accepted.{IsAcceptedConfig};
ghost use Rattle.page_state.specs.EntryTests.{annotation};
ghost use Rattle.page_state.specs.Regions.{end_of};
ghost use Rattle.page_state.specs.Geometries.{levels_below};
ghost use Rattle.hypercalls.specs.Booted.{IsBooted, IsConfig, layout_for};
ghost use Rattle.world.specs.Boots.{IsIdle, IsNoBoot, IsVacant, boot_number, new_shared_of, hyp_change as hyp_change_of};
ghost use Rattle.table_tree.specs.View.{tree_of};

use component::Component;
use decisions::{hyp_page, leaf};
use guest_component::Guest;
use hyp_pool::{Pool, PoolFault, laws};
use hypercalls::Parts;
use owner_table::OwnerTable;
use page_state::laws::blocks_on_range;
use page_state::{
    Config, Entry, Frame, Geometry, Layout, MemoryMap, Owner, PageRange, Prot, Row, State, Usage,
};
use part_types::{CpuState, GuestPart, Log, SharedPart, VmPart};
use reference_model::laws::accepted_usable;
use reference_model::{Changes, MapChange};
use std::alloc::{AllocError, Allocator, Global};
use table_tree::Tree;
use thiserror::Error;
use vm_table::VmTable;
use walk_plan::need_of_new;

/// The most CPUs of a world.
const MOST_CPUS: u64 = 64;

/// The most calls of a log.
const MOST_CALLS: u64 = 1_048_576;

/// The slots of VMs (profile).
const SLOTS: u64 = 64;

/// The hypervisor's owner number (profile).
const HYPERVISOR: Owner = Owner(1);

/// Why a world doesn't boot. The first that is true is answered.
#[derive(Clone, Copy, PartialEq, Debug, Error)]
pub enum BootFault {
    /// (1)
    #[error("CPUs not 1 to 64, log not 1 to 1048576, or an unknown geometry")]
    Config,
    /// (2)
    #[error("the carve-out has fewer frames than boot needs tables")]
    CarveSmall,
    /// (3) A growth was refused.
    #[error("out of memory")]
    NoMemory,
}

impl BootFault {
    /// The fault's number.
    pub fn number(self) -> u64
        ensures { result ≡ boot_number self }
    {
        match self {
            BootFault::Config => 1,
            BootFault::CarveSmall => 2,
            BootFault::NoMemory => 3,
        }
    }
}

impl From<PoolFault> for BootFault {
    ghost use Rattle.world.specs.Boots.{fault_of_pool};

    ghost from_gives = { λ fault boots. boots ≡ fault_of_pool fault };

    fn from(fault: PoolFault) -> BootFault {
        match fault {
            PoolFault::NoPool => BootFault::CarveSmall,
            PoolFault::NoMemory => BootFault::NoMemory,
        }
    }
}

impl From<AllocError> for BootFault {
    ghost use Rattle.world.specs.declared.boot.BootFault.TheVariants.{NoMemory};

    ghost from_gives = { λ _ fault. fault ≡ NoMemory };

    fn from(_error: AllocError) -> BootFault {
        BootFault::NoMemory
    }
}

/// The geometry of an accepted configuration.
fn geometry_of(config: &Config) -> Option<Geometry>
    ensures { MatchOption result (IsAcceptedConfig config.now → ⊥) (IsConfig config.now) }
{
    let is_good = config.cpus >= 1
        && config.cpus <= MOST_CPUS
        && config.log >= 1
        && config.log <= MOST_CALLS;
    if is_good {
        Geometry::of_bits(config.geometry)
    } else {
        None
    }
}

/// The host's pages of the carve-out become the hypervisor's.
fn host_change(carve: PageRange) -> MapChange
    requires low { end_of carve ≤ 2 ^ 26 }
    requires some { 1 ≤ carve.count }
    ensures value { result ≡ record { range = carve; entry = annotation 1 } }
    ensures fits { (g : Geometry) → Fits (levels_below g) result }
{
    MapChange {
        range: carve,
        entry: Entry::Annotated(HYPERVISOR),
    }
}

/// The hypervisor's pages of the carve-out become RW Normal Owned.
fn hyp_change(carve: PageRange) -> MapChange
    requires low { end_of carve ≤ 2 ^ 26 }
    requires some { 1 ≤ carve.count }
    ensures value { result ≡ hyp_change_of carve }
    ensures fits { (g : Geometry) → Fits (levels_below g) result }
{
    MapChange {
        range: PageRange {
            first: hyp_page(carve.first.0),
            count: carve.count,
        },
        entry: leaf(carve.first.0, Prot::RW, State::Owned),
    }
}

/// The row of a frame that the Shared part holds.
fn pool_row() -> Row
    ensures { result ≡ pool_row_of }
{
    Row {
        owner: HYPERVISOR,
        lent: None,
        usage: Usage::SharedPool,
    }
}

/// Whether `frames` are enough: one for each root, and one for each table below them.
fn is_enough(frames: u64, host_need: usize, hyp_need: usize) -> bool
    ensures { IsTrue result ↔ (2 + host_need + hyp_need ≤ frames) }
{
    frames >= 2
        && host_need as u64 <= frames - 2
        && hyp_need as u64 <= frames - 2 - host_need as u64
}

/// Whether the carve-out has a frame for each table that boot needs.
fn is_carve_enough(map: &MemoryMap, geometry: Geometry) -> bool
    ensures { (config : Config) → IsTrue result ↔ IsCarveEnough (layout_for map.now config geometry) }
{
    let carve = map.carve();
    let host = host_change(carve);
    let hyp = hyp_change(carve);
    let host_need = need_of_new(geometry, host.range, &host.entry);
    let hyp_need = need_of_new(geometry, hyp.range, &hyp.entry);
    is_enough(carve.count, host_need, hyp_need)
}

/// Takes the lowest frame for a root.
fn take_root(pool: &mut Pool) -> Frame
    requires { 0 < length pool.old.frames }
    ensures taken { pool.old.frames ≡ result.0 ∷ pool.new.frames }
    ensures room { pool.new.room ≡ pool.old.room }
    ensures pool { IsPool pool.new }
{
    pool.take().unwrap()
}

/// Trees of their roots alone, which take the lowest two frames of the carve-out, and the pool of those left.
fn roots<A: Allocator + Copy>(
    global: Global,
    alloc: A,
    map: &MemoryMap,
    geometry: Geometry,
) -> Result<(Component<A>, Component<A>, Pool), AllocError>
    requires { 2 ≤ map.now.carve.count }
    ensures host { IfOk result
        (λ r. tree_of r.0.tree ≡ root_tree (levels_below geometry) map.now.carve.first.0) }
    ensures hyp { IfOk result
        (λ r. tree_of r.1.tree ≡ root_tree (levels_below geometry) (map.now.carve.first.0 + 1)) }
    ensures pool { IfOk result
        (λ r. r.2.frames ≡ drop 2 (frames_from map.now.carve.first.0 map.now.carve.count)) }
    ensures host_geometry { IfOk result (λ r. r.0.tree.geometry ≡ geometry) }
    ensures hyp_geometry { IfOk result (λ r. r.1.tree.geometry ≡ geometry) }
    ensures apart { IfOk result (λ r. IsApart r.0.tree r.1.tree r.2) }
{
    laws::counted_frames();
    let carve = map.carve();
    let mut pool = Pool::of(global, Frame(carve.first.0), carve.count as usize)?;
    let host_root = take_root(&mut pool);
    let hyp_root = take_root(&mut pool);
    let host = Component::new(global, Tree::new(alloc, host_root, geometry)?);
    let Ok(tree) = Tree::new(alloc, hyp_root, geometry) else {
        drop((host, pool));
        return Err(AllocError);
    };
    let hyp = Component::new(global, tree);
    Ok((host, hyp, pool))
}

/// The Shared part before its first change.
fn new_shared<A: Allocator + Copy>(
    global: Global,
    alloc: A,
    map: &MemoryMap,
    calls: u64,
    geometry: Geometry,
) -> Result<SharedPart<A>, AllocError>
    requires { 2 ≤ map.now.carve.count }
    ensures shared { IfOk result (λ s. shared_of s ≡ new_shared_of map.now geometry) }
    ensures depth { IfOk result (λ s. depth_of s ≡ levels_below geometry) }
    ensures rows { IfOk result (λ s. HasMemoryRows map.now s.owners) }
    ensures log { IfOk result (λ s. IsNewLog calls s.log) }
{
    let (host, hyp, pool) = roots(global, alloc, map, geometry)?;
    let Ok(rows) = OwnerTable::of(global, map) else {
        drop((host, hyp, pool));
        return Err(AllocError);
    };
    let Ok(log) = Log::new(global, calls) else {
        drop((host, hyp, pool));
        drop(rows);
        return Err(AllocError);
    };
    Ok(SharedPart {
        host,
        hyp,
        pool,
        owners: rows,
        log,
    })
}

/// The Shared part at boot.
fn shared_at_boot<A: Allocator + Copy>(
    global: Global,
    alloc: A,
    map: &MemoryMap,
    config: Config,
    geometry: Geometry,
) -> Result<SharedPart<A>, BootFault>
    requires enough { IsCarveEnough (layout_for map.now config geometry) }
    requires usable { IsUsable (layout_for map.now config geometry) }
    ensures shared { IfOk result (λ s. shared_of s ≡ (booted_of (layout_for map.now config geometry)).shared) }
    ensures depth { IfOk result (λ s. depth_of s ≡ levels_below geometry) }
    ensures rows { IfOk result (λ s. HasMemoryRows map.now s.owners) }
    ensures log { IfOk result (λ s. IsNewLog config.log s.log) }
    ensures err { OnErr result (result ≡ Err BootFault.NoMemory) }
{
    blocks_on_range();
    reference_model::laws::boot_legal();
    let carve = map.carve();
    let changes = Changes {
        host: Some(host_change(carve)),
        hyp: Some(hyp_change(carve)),
        ..Changes::NONE
    };
    let mut shared = new_shared(global, alloc, map, config.log, geometry)?;
    shared.change(alloc, &changes)?;
    shared.give_rows(carve, pool_row());
    Ok(shared)
}

/// The VM part at boot.
fn vms_at_boot(global: Global, calls: u64) -> Result<VmPart, AllocError>
    ensures slots { IfOk result (λ v. vm_slots v ≡ no_vms) }
    ensures log { IfOk result (λ v. IsNewLog calls v.log) }
{
    let table = VmTable::new(global)?;
    let log = Log::new(global, calls)?;
    Ok(VmPart { table, log })
}

/// A Guest part whose guest is Empty.
fn vacant_part<A: Allocator>(
    global: Global,
    geometry: Geometry,
    calls: u64,
) -> Result<GuestPart<A>, AllocError>
    ensures { IfOk result (IsVacant geometry calls) }
{
    let guest = Guest::new(global, geometry);
    let log = Log::new(global, calls)?;
    Ok(GuestPart { guest, log })
}

/// The Guest parts at boot, whose guests are Empty.
fn guests_at_boot<A: Allocator>(
    global: Global,
    geometry: Geometry,
    calls: u64,
) -> Result<Vec<GuestPart<A>>, AllocError>
    ensures count { IfOk result (λ guests. vec_len guests ≡ 64) }
    ensures vacant { IfOk result (λ guests. All (IsVacant geometry calls) guests.items) }
{
    let mut guests = Vec::with_capacity(global, SLOTS as usize)?;
    for _made in 0..SLOTS {
        let part = vacant_part(global, geometry, calls)?;
        guests.push(part).map_err(AllocError::from)?;
    }
    Ok(guests)
}

/// The CPUs at boot, by number.
fn cpus_at_boot(global: Global, config: Config) -> Result<Vec<CpuState>, AllocError>
    ensures count { IfOk result (λ cpus. vec_len cpus ≡ config.cpus) }
    ensures idle { IfOk result (λ cpus. All (λ k. IsIdle config.log k) cpus.items) }
    ensures numbers { IfOk result (λ cpus. AreNumbered cpus.items) }
{
    let mut cpus = Vec::with_capacity(global, config.cpus as usize)?;
    for id in 0..config.cpus {
        let log = Log::new(global, config.log)?;
        let cpu = CpuState {
            id,
            loaded: None,
            hand: None,
            ticket: None,
            log,
        };
        cpus.push(cpu).map_err(AllocError::from)?;
    }
    Ok(cpus)
}

/// The parts of a world at boot.
pub fn booted<A: Allocator + Copy>(
    global: Global,
    alloc: A,
    map: &MemoryMap,
    config: Config,
) -> Result<Parts<A>, BootFault>
    ensures { MatchResult result (IsBooted map.now config) (λ fault. IsNoBoot fault map.now config) }
{
    let Some(geometry) = geometry_of(&config) else {
        return Err(BootFault::Config);
    };
    if !is_carve_enough(map, geometry) {
        return Err(BootFault::CarveSmall);
    }
    let _ = map.regions();
    accepted_usable();
    let shared = shared_at_boot(global, alloc, map, config, geometry)?;
    let vms = vms_at_boot(global, config.log)?;
    let guests = guests_at_boot(global, geometry, config.log)?;
    let cpus = cpus_at_boot(global, config)?;
    Ok(Parts {
        layout: Layout {
            map: map.clone()?,
            config,
            geometry,
        },
        vms,
        shared,
        guests,
        cpus,
    })
}
