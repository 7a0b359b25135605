//! What a run looks like in a picture.
ghost use Rattle.std.specs.Prelude.{◌≡◌};
ghost use Rattle.image_dump.specs.Looks.{look_of as look_of_word, mapped_look, owned_by};

use descriptor::State;
use svg_elements::{Colour, Paint, of_owner};
use table_words::Decoded;

/// A colour, and the paint over it.
#[derive(Clone, Copy)]
pub struct Look {
    pub base: Colour,
    pub paint: Paint,
}

/// Pages of an owner.
pub(crate) fn owned(owner: u64) -> Look
    ensures { result ≡ owned_by owner }
{
    let colour = of_owner(owner);
    Look {
        base: colour,
        paint: Paint::Plain(colour),
    }
}

/// Pages that a tree maps.
fn mapped(tree: u64, state: Option<State>) -> Look
    ensures { result ≡ mapped_look tree state }
{
    let colour = of_owner(tree);
    match state {
        Some(State::Owned) => owned(tree),
        Some(State::SharedOwned) => Look {
            base: colour,
            paint: Paint::Lines(Colour::Black),
        },
        Some(State::SharedBorrowed) => Look {
            base: Colour::Pale,
            paint: Paint::Lines(colour),
        },
        None => Look {
            base: Colour::Pale,
            paint: Paint::Dots(colour),
        },
    }
}

/// What pages of a tree look like.
pub(crate) fn look_of(tree: u64, decoded: Decoded) -> Look
    ensures { result ≡ look_of_word tree decoded }
{
    match decoded {
        Decoded::Leaf(mapping) => mapped(tree, mapping.state),
        Decoded::Annotated { owner, guest } => match guest {
            None => owned(owner.0),
            Some(_) => Look {
                base: Colour::Pale,
                paint: Paint::Bars(Colour::Black),
            },
        },
        Decoded::Poisoned | Decoded::Locked | Decoded::Cleared(_) => Look {
            base: Colour::Pale,
            paint: Paint::Dots(Colour::Black),
        },
        Decoded::Malformed | Decoded::Unmapped | Decoded::Table(_) => Look {
            base: Colour::White,
            paint: Paint::Bars(Colour::Red),
        },
    }
}
