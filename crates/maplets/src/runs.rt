//! The runs of a map, in order.
ghost use Rattle.std.specs.Prelude.{◌≡◌};

use page_state::{Run, Target};
use std::marker::Model;

/// The coarsest runs of a map, by page.
#[derive(Drop)]
pub struct Runs<'a> {
    runs: &'a [run_list::Run<Target>],
}

impl<'a> Model for Runs<'a> {
    ghost use Rattle.std.specs.Prelude.{List};
    ghost use Rattle.page_state.specs.declared.entry.Run.{Run as PageRun};
    ghost use Rattle.maplets.specs.View.{target_runs};

    ghost Value = { List PageRun };

    ghost view = { λ s. target_runs s.runs.now };
}

impl<'a> Runs<'a> {
    ghost use Rattle.maplets.specs.View.{target_runs};

    pub(crate) fn new(runs: &'a [run_list::Run<Target>]) -> Runs<'a>
        ensures { result ≡ target_runs runs.entry.now }
    {
        Runs { runs }
    }
}

impl Iterator for Runs<'_> {
    type Item = Run;

    ghost use Rattle.std.specs.Iterator.{YieldsFirst, item_count};

    ghost next_gives = { YieldsFirst (λ s. s) };

    ghost remaining = { item_count (λ s. s) };

    fn next(&mut self) -> Option<Run> {
        let (run, rest) = self.runs.split_first()?;
        self.runs = rest;
        Some(Run {
            pages: run.pages,
            target: run.value,
        })
    }
}
