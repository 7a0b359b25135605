//! What an object says of its line. The bodies are empty.
ghost use Rattle.std.specs.Prelude.{◌≡◌, ℕ, List, Some};
ghost use Rattle.serde_json.specs.Data.{Data};
ghost use Rattle.report_json.specs.Forms.{form_object};
ghost use Rattle.report_json.specs.Made.{IsMade};
ghost use Rattle.report_json.specs.declared.forms.Form.{Form};

/// The object of a line has the values of its fields' texts: the line is the form's start and then these texts, each
/// with its stop.
pub fn rebuilt()
    ensures { (form : Form) (line : List ℕ) (found : Data)
        → form_object form line ≡ Some found
        → IsMade form line found }
{}
