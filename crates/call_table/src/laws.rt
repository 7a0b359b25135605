//! Laws of the table of calls.
ghost use Rattle.call_table.specs.Laws.{CallsAreNamed, RowsDiffer, StepsAreMade, WordsAreRead};

/// `step_of` and `values_of` are inverse, names and numbers of calls differ, and each word parses as the value that it
/// was written for.
pub fn table_is_sound()
    ensures made { StepsAreMade }
    ensures named { CallsAreNamed }
    ensures differ { RowsDiffer }
    ensures words { WordsAreRead }
{}
