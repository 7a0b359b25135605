//! What the picture of a report shows.
ghost use Rattle.image_dump.specs.ShownLines.{AreLinesShown, AreRunsBlocks};

/// The elements of a picture tell the lines of the report, each once, in order, and nothing else; its blocks are those of runs.
pub fn lines_once()
    ensures lines { AreLinesShown }
    ensures blocks { AreRunsBlocks }
{}
