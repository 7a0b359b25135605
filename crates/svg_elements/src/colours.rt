//! The colours of owners.
ghost use Rattle.std.specs.Prelude.{◌≡◌};
ghost use Rattle.svg_elements.specs.Items.{angle_of, code_of, owner_colour, slot_colour};

/// A colour of a picture.
#[derive(Clone, Copy, PartialEq)]
pub enum Colour {
    /// The host's: pale, since most frames are the host's.
    Ice,
    /// The hypervisor's.
    Orange,
    /// Those of guests, by slot; the ninth begins again.
    Green,
    Pink,
    Violet,
    Teal,
    Crimson,
    Lime,
    Purple,
    Brown,
    /// Those of rules and marks.
    Black,
    Pale,
    White,
    /// That of what isn't sound.
    Red,
}

impl Colour {
    /// Red, green and blue, two hexadecimal digits each.
    pub(crate) fn code(self) -> &'static str
        ensures { result.now ≡ code_of self }
    {
        match self {
            Colour::Ice => "d0e1f5",
            Colour::Orange => "f08c00",
            Colour::Green => "2f9e44",
            Colour::Pink => "c2255c",
            Colour::Violet => "6741d9",
            Colour::Teal => "0c8599",
            Colour::Crimson => "e03131",
            Colour::Lime => "66a80f",
            Colour::Purple => "9936b5",
            Colour::Brown => "8d5524",
            Colour::Black => "212529",
            Colour::Pale => "e9ecef",
            Colour::White => "ffffff",
            Colour::Red => "c92a2a",
        }
    }

    /// By how many degrees upright lines of a colour are turned: the host's rise, the hypervisor's fall, guests' are upright, and
    /// white ones rise.
    pub(crate) fn angle(self) -> &'static str
        ensures { result.now ≡ angle_of self }
    {
        match self {
            Colour::Ice | Colour::White => "45",
            Colour::Orange => "-45",
            _ => "0",
        }
    }
}

/// The colour of a guest's slot.
pub fn of_slot(slot: u64) -> Colour
    ensures { result ≡ slot_colour slot }
{
    match slot % 8 {
        0 => Colour::Green,
        1 => Colour::Pink,
        2 => Colour::Violet,
        3 => Colour::Teal,
        4 => Colour::Crimson,
        5 => Colour::Lime,
        6 => Colour::Purple,
        _ => Colour::Brown,
    }
}

/// The colour of an owner, by its number: 0 the host, 1 the hypervisor, and from 2 on the guest of a slot.
pub fn of_owner(owner: u64) -> Colour
    ensures { result ≡ owner_colour owner }
{
    match owner {
        0 => Colour::Ice,
        1 => Colour::Orange,
        guest => of_slot(guest.saturating_sub(2)),
    }
}
