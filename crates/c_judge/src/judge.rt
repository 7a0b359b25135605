//! A call judged by its layout's freedoms.
ghost use Rattle.std.specs.Prelude.{IfErr, IfOk};
ghost use Rattle.c_states.specs.Views.{lists_from_c};
ghost use Rattle.c_judge.specs.Found.{IsFound, IsUnfound};

use crate::exact::found_exactly;
use crate::found::{Found, Unfound};
use crate::free::found_freely;
use crate::wanted::freedoms_of;
use c_states::{PlainCall, PlainLayout, PlainState};
use std::alloc::Global;

/// Judges a call by the state before it, its reply and the state after it: None if they agree with the model up to the
/// layout's freedoms, else the first difference. Without a freedom the states' tables and pools are compared too.
pub fn judged_by(
    alloc: Global,
    layout: &PlainLayout<'_>,
    before: &PlainState<'_>,
    call: &PlainCall,
    after: &PlainState<'_>,
) -> Result<Option<Found>, Unfound>
    ensures found { IfOk result
        (IsFound layout.now layout.now.regions.now (lists_from_c before.now) call.now
        (lists_from_c after.now)) }
    ensures unfound { IfErr result
        (IsUnfound layout.now layout.now.regions.now (lists_from_c before.now) call.now
        (lists_from_c after.now)) }
{
    let freedoms = match freedoms_of(layout.freedoms) {
        Ok(freedoms) => freedoms,
        Err(fault) => return Err(Unfound::Freedoms(fault)),
    };
    let found = match freedoms {
        None => found_exactly(alloc, layout, before, call, after),
        Some(freedoms) => found_freely(alloc, freedoms, layout, before, call, after),
    };
    match found {
        Ok(found) => Ok(found),
        Err(why) => Err(Unfound::Call(why)),
    }
}
