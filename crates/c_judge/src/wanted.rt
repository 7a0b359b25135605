//! Freedoms in numbers.
ghost use Rattle.std.specs.Prelude.{◌≡◌, IfErr, IfOk};
ghost use Rattle.c_judge.specs.Freedoms.{freedoms_from_c, IsFreedomsFault, IsTakenAs};

use freedoms::Freedoms;

/// Why freedoms are refused. The first that is true is answered, in the order of the variants.
#[derive(Clone, Copy, PartialEq)]
pub enum FreedomsFault {
    /// A bit that is no freedom's.
    Unknown,
    /// A freedom without that of own tables.
    WithoutOwnTables,
}

/// The freedoms of a number: none at 0, with which a call is judged exactly. Bit 0 is for own tables, 1 for a lazy
/// host, 2 for any kind of a device's page, and 3 for any name of a refusal.
pub(crate) fn freedoms_of(number: u64) -> Result<Option<Freedoms>, FreedomsFault>
    ensures taken { IfOk result (IsTakenAs number) }
    ensures fault { IfErr result (IsFreedomsFault number) }
{
    if number >= 16 {
        return Err(FreedomsFault::Unknown);
    }
    if number == 0 {
        return Ok(None);
    }
    if number % 2 == 0 {
        return Err(FreedomsFault::WithoutOwnTables);
    }
    Ok(Some(Freedoms {
        lazy_host: number / 2 % 2 == 1,
        any_kind: number / 4 % 2 == 1,
        any_refusal: number / 8 % 2 == 1,
    }))
}
