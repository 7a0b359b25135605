//! Text that is put into room of the caller's.
ghost use Rattle.std.specs.Prelude.{◌≡◌, ◌<◌, ◌≤◌, length};
ghost use Rattle.c_calls.specs.Texts.{IsOffered};

/// Puts text into the front of a room, if that has room for all of it, and returns its length in bytes.
pub(crate) fn offered(told: &[u8], room: &mut [u8]) -> usize
    ensures { IsOffered told.now room.old room.new result }
{
    let count = told.len();
    if count <= room.len() {
        room[..count].copy_from_slice(told);
    }
    count
}
