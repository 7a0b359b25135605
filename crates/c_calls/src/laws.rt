//! What holds of the lines that a recorded trace begins with. The function does nothing, and its contract is the law.
ghost use Rattle.c_calls.specs.Laws.{StartsAreRead};

/// The lines of a layout's settings say these settings and no others, and the line after them says the boot.
pub fn starts_are_read()
    ensures { StartsAreRead }
{}
