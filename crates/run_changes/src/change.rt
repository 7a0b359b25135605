//! A value before and after.
ghost use Rattle.std.specs.Prelude.{◌≡◌};
ghost use Rattle.run_changes.specs.Changes.{advance_change, CanBoth};

use run_list::Advance;

/// The value of a page before and after. None means no value.
#[derive(Clone, Copy, PartialEq)]
pub struct Change<V> {
    pub before: Option<V>,
    pub after: Option<V>,
}

impl<V: Advance> Advance for Change<V> {
    ghost use Rattle.run_changes.specs.ChangeLaws.{change_laws};

    ghost advance = { advance_change V.advance };

    ghost CanAdvance = { CanBoth V.CanAdvance };

    ghost laws = { change_laws V.advance V.CanAdvance V.eq V.Advance.laws };

    fn advanced(self, pages: u64) -> Change<V> {
        Change {
            before: later(self.before, pages),
            after: later(self.after, pages),
        }
    }
}

ghost use Rattle.run_list.specs.Runs.{option_advance};
ghost use Rattle.std.specs.Option.{ForSome};

/// A value some pages further on, if there is one.
fn later<V: Advance>(value: Option<V>, pages: u64) -> Option<V>
    requires { ForSome value (λ v. V.CanAdvance v pages) }
    ensures { result ≡ option_advance V.advance value pages }
{
    match value {
        Some(value) => Some(value.advanced(pages)),
        None => None,
    }
}
