//! The state at boot.
ghost use Rattle.std.specs.Prelude.{◌≡◌};
ghost use Rattle.pkvm_oracle.specs.Booted.{IsBooted, refused_by_boot, status_by_boot};

use crate::judged::{NOTHING, PlainRefused, of_fault, unmade_refused, unmade_status};
use crate::predicted::{NO_SIZES, PlainRoom, PlainSizes, fits, put_all, room_of, sizes_of};
use crate::statuses::{BAD_LAYOUT, NO_MEMORY, NO_ROOM};
use c_calls::{Unbooted, boot_lists};
use c_states::{PlainLayout, Unmade};
use std::alloc::Global;

/// Why a layout doesn't boot, in numbers.
pub(crate) fn unbooted_refused(why: Unbooted) -> PlainRefused
    ensures { result ≡ refused_by_boot why }
{
    match why {
        Unbooted::Layout(fault) => unmade_refused(Unmade::Layout(fault)),
        Unbooted::Cpus => of_fault(25),
        Unbooted::CarveSmall => of_fault(26),
        Unbooted::NoMemory => NOTHING,
    }
}

/// The status then.
pub(crate) fn unbooted_status(why: Unbooted) -> i32
    ensures { result ≡ status_by_boot why }
{
    match why {
        Unbooted::Layout(fault) => unmade_status(Unmade::Layout(fault), BAD_LAYOUT),
        Unbooted::Cpus | Unbooted::CarveSmall => BAD_LAYOUT,
        Unbooted::NoMemory => NO_MEMORY,
    }
}

/// The state at boot: 0, the fronts of the rooms, as far as `sizes` says, have it, and all after them stays. -2 if a
/// list has no room: `sizes` says what is needed. Else `sizes` is 0 throughout: -8 the layout is refused or doesn't
/// boot, and `refused` says why; -12 memory was. Below 0 all rooms stay.
#[unsafe(no_mangle)]
pub extern "C" fn pkvm_boot(
    alloc: Global,
    layout: &PlainLayout<'_>,
    room: &mut PlainRoom<'_>,
    sizes: &mut PlainSizes,
    refused: &mut PlainRefused,
) -> i32
    ensures { IsBooted layout.now layout.now.regions.now room.old room.new sizes.new refused.new result }
{
    *refused = NOTHING;
    *sizes = NO_SIZES;
    let lists = match boot_lists(alloc, layout) {
        Ok(lists) => lists,
        Err(why) => {
            *refused = unbooted_refused(why);
            return unbooted_status(why);
        }
    };
    let needed = sizes_of(&lists);
    *sizes = needed;
    let is_in = fits(needed, room_of(room));
    if is_in {
        put_all(&lists, room);
    }
    drop(lists);
    if is_in { 0 } else { NO_ROOM }
}
