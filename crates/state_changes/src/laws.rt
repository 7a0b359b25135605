//! The law of the report. The function does nothing, and its contract is the law.
ghost use Rattle.state_changes.specs.Laws.{OneText};

/// Two states determine the text of their changes.
pub fn one_text()
    ensures { OneText }
{}
