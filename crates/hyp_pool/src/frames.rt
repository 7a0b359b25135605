//! The frames of a pool, the lowest first.
ghost use Rattle.std.specs.Prelude.{◌≡◌, reverse};

use page_state::Frame;
use std::marker::Model;

/// The free frames of a pool, in increasing order.
#[derive(Drop)]
pub struct Frames<'a> {
    // the highest first
    left: &'a [Frame],
}

impl<'a> Model for Frames<'a> {
    ghost use Rattle.std.specs.Prelude.{List, reverse};
    ghost use Rattle.page_state.specs.declared.Frame.{Frame as PoolFrame};

    ghost Value = { List PoolFrame };

    ghost view = { λ s. reverse s.left.now };
}

impl<'a> Frames<'a> {
    pub(crate) fn new(left: &'a [Frame]) -> Frames<'a>
        ensures { result ≡ reverse left.entry.now }
    {
        Frames { left }
    }
}

impl Iterator for Frames<'_> {
    type Item = Frame;

    ghost use Rattle.std.specs.Iterator.{YieldsFirst, item_count};

    ghost next_gives = { YieldsFirst (λ s. s) };

    ghost remaining = { item_count (λ s. s) };

    fn next(&mut self) -> Option<Frame> {
        let (last, rest) = self.left.split_last()?;
        self.left = rest;
        Some(*last)
    }
}
