//! A guest: Empty, Live or Dying.
ghost use Rattle.guest_component.specs.Bodies.{IsOfGeometry, IsOfGeometry-prop};

use crate::body::Body;
use component::Plan;
use page_state::Geometry;
use std::alloc::{Allocator, Global};

/// A guest. None is an Empty guest, which holds no memory.
#[derive(Drop)]
pub struct Guest<A: Allocator> {
    /// The allocator of maplets and pool.
    pub global: Global,
    /// The geometry of its tree.
    pub geometry: Geometry,
    pub body: Option<Body<A>>,
    pub ghost alike: { IsOfGeometry geometry body } by { IsOfGeometry-prop geometry body },
}

/// All that changes of a guest need, in hand: the tables, with frames of its pool, and room in its maplets; for an install the
/// new guest. It must be spent, by `commit` or by `release`.
pub struct GuestPlan<A: Allocator> {
    /// The plan of the map's change; None if the guest is Empty.
    pub map: Option<Plan<A>>,
    /// The new guest.
    pub made: Option<Body<A>>,
}
