//! Laws about audits and judgements, and worked rows of texts. Each function does nothing, and its contract is the law or the rows.
ghost use Rattle.ghost_judge.specs.Judgements.{StepsAgree};
ghost use Rattle.ghost_judge.specs.OneAnswer.{AuditElse, AuditOnce, JudgedElse, JudgedOnce, StateElse, StateOnce};
ghost use Rattle.ghost_judge.specs.TextRows.{FreeWritten, JudgementWritten, MapWritten, OwnerWritten, ReplyWritten, StateWritten, TableWritten};

/// The judgement agrees with each step of the model: the reply and the state after it are the ones that `predict_step`
/// predicts, or the call ran out of memory in a step that `predict_step` makes, and nothing changed.
pub fn steps_agree()
    ensures agree { StepsAgree }
{}

/// An audit and a judgement have one answer: no two disagreements are both the first, and none is if all agrees.
pub fn one_answer()
    ensures audit { AuditOnce }
    ensures audit_else { AuditElse }
    ensures state { StateOnce }
    ensures state_else { StateElse }
    ensures judged { JudgedOnce }
    ensures judged_else { JudgedElse }
{}

/// How disagreements are written.
pub fn written()
    ensures map { MapWritten }
    ensures owner { OwnerWritten }
    ensures reply { ReplyWritten }
    ensures free { FreeWritten }
    ensures table { TableWritten }
    ensures state { StateWritten }
    ensures judgement { JudgementWritten }
{}
