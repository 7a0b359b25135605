//! What holds of words, owner rows and replies.
ghost use Rattle.c_words.specs.Laws.{DescsRoundTrip, EntriesRoundTrip, RepliesRoundTrip, RowsRoundTrip, TargetsRoundTrip};

/// A written value says again the value that it was written for.
pub fn round_trips()
    ensures entries { EntriesRoundTrip }
    ensures targets { TargetsRoundTrip }
    ensures descs { DescsRoundTrip }
    ensures rows { RowsRoundTrip }
    ensures replies { RepliesRoundTrip }
{}
