//! Roots, and the trees found from them.
ghost use Rattle.std.specs.Prelude.{◌≡◌};

use memory_image::Refused;
use run_list::Run;
use std::alloc::AllocError;
use table_words::Profile;
use walked_tables::{Reached, Said, Stopped};

/// The root of a tree: one page, or several that are concatenated.
#[derive(Clone, Copy, PartialEq)]
pub struct Root {
    /// The number that the tree goes by.
    pub tree: u64,
    /// The frame of the first page.
    pub frame: u64,
    /// How many levels are below the root.
    pub depth: u32,
    /// How many pages there are.
    pub count: u64,
    /// How its words are written.
    pub profile: Profile,
}

/// What a walk finds.
#[derive(Drop)]
pub struct Tree {
    /// What each page has, as the coarsest list.
    pub runs: Vec<Run<Said>>,
    /// Its tables, each before those below it.
    pub tables: Vec<Reached>,
}

/// Why a tree isn't walked.
#[derive(Clone, Copy, PartialEq)]
pub enum Unwalked {
    /// The image doesn't have all of this page of the root.
    Rootless { frame: u64 },
    /// A table is reached twice: where it was first, and where it is now.
    Again { first: Reached, second: Reached },
    /// There are 2^20 tables or more.
    TooManyTables,
    /// The image could not be read, or memory was refused.
    Failed(Refused),
}

impl From<AllocError> for Unwalked {
    ghost use Rattle.image_trees.specs.declared.root.Unwalked.TheVariants.{Failed};
    ghost use Rattle.memory_image.specs.declared.refused.Refused.TheVariants.{NoMemory};

    ghost from_gives = { λ _ unwalked. unwalked ≡ Failed NoMemory };

    fn from(_error: AllocError) -> Unwalked {
        Unwalked::Failed(Refused::NoMemory)
    }
}

impl From<Refused> for Unwalked {
    ghost use Rattle.image_trees.specs.declared.root.Unwalked.TheVariants.{Failed};

    ghost from_gives = { λ refused unwalked. unwalked ≡ Failed refused };

    fn from(refused: Refused) -> Unwalked {
        Unwalked::Failed(refused)
    }
}

impl From<Stopped> for Unwalked {
    ghost use Rattle.image_trees.specs.Stops.{unwalked_by};

    ghost from_gives = { λ stopped unwalked. unwalked ≡ unwalked_by stopped };

    fn from(stopped: Stopped) -> Unwalked {
        match stopped {
            Stopped::Again { first, second } => Unwalked::Again { first, second },
            Stopped::NoMemory => Unwalked::Failed(Refused::NoMemory),
        }
    }
}
