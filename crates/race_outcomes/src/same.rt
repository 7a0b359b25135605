//! Whether two states are the same.
ghost use Rattle.std.specs.Prelude.{◌≡◌, ◌≢◌, ◌↔◌, IsTrue, false};
ghost use Rattle.page_state.specs.LayoutView.{layout_of};
ghost use Rattle.ghost_spec.specs.States.{ghost_state};
ghost use Rattle.race_outcomes.specs.Layers.{AreSameRooms};

use ghost_judge::judge::differs;
use ghost_spec::lists::GhostRooms;
use ghost_spec::state::Ghost;

/// Whether logs have the same rooms.
fn has_same_rooms(a: &GhostRooms, b: &GhostRooms) -> bool
    ensures { IsTrue result ↔ AreSameRooms a.now b.now }
{
    if a.vms != b.vms {
        return false;
    }
    if a.shared != b.shared {
        return false;
    }
    if a.guests != b.guests {
        return false;
    }
    a.cpus == b.cpus
}

/// Whether two states are the same. Where the layouts differ, it may say no of the same states.
pub(crate) fn is_same_state(a: &Ghost, b: &Ghost) -> bool
    ensures same { IsTrue result → ghost_state a.now ≡ ghost_state b.now }
    ensures apart { result ≡ false
        → layout_of a.now.layout ≡ layout_of b.now.layout
        → ghost_state a.now ≢ ghost_state b.now }
{
    if a.lists().layout.config.log != b.lists().layout.config.log {
        return false;
    }
    if !has_same_rooms(&a.lists().rooms, &b.lists().rooms) {
        return false;
    }
    differs(a, b).is_none()
}
