//! Lines of a report.
ghost use Rattle.std.specs.Prelude.{Some};
ghost use Rattle.trace_text.specs.Texts.{text_of, text_of_end};

use crate::fault::Fault;
use ghost_judge::disagreement::Disagreement;
use ghost_judge::text::Judgement;
use ghost_legal::Unlawful;
use std::fmt;
use trace_lines::Response;

/// A line of a report, without its end.
#[derive(Clone, Copy)]
pub enum ReportLine {
    /// What a line of the trace reports.
    Response(Response),
    /// What the judgement of a step found. It follows the step's line.
    Judged(Disagreement),
    /// What the audit after a step found. It follows the judgement's line.
    Audited(Disagreement),
    /// Why the state that the words say isn't legal. It follows the audit's line.
    Illegal(Unlawful),
    /// The fault of a line. It ends the report.
    Fault { line: u64, fault: Fault },
    /// The numbers of step lines and of disagreements. It ends the report.
    End { steps: u64, disagreements: u64 },
}

impl fmt::Display for ReportLine {
    ghost output = { λ line. Some (text_of line) };

    #[tactic(auto, unfolding(crate::specs::Texts::text_of))]
    fn fmt<W: fmt::Write>(&self, f: &mut fmt::Formatter<W>) -> fmt::Result {
        match self {
            ReportLine::Response(response) => fmt::Display::fmt(response, f),
            ReportLine::Judged(found) => fmt::Display::fmt(&Judgement(*found), f),
            ReportLine::Audited(found) => fmt::Display::fmt(found, f),
            ReportLine::Illegal(why) => write!(f, "illegal {why}"),
            ReportLine::Fault { line, fault } => write!(f, "{line} fault {fault}"),
            ReportLine::End {
                steps,
                disagreements,
            } => {
                let ending = Ending {
                    steps: *steps,
                    disagreements: *disagreements,
                };
                fmt::Display::fmt(&ending, f)
            }
        }
    }
}

/// The last line of a whole trace.
#[derive(Clone, Copy)]
struct Ending {
    steps: u64,
    disagreements: u64,
}

impl fmt::Display for Ending {
    ghost output = { λ ending. Some (text_of_end ending.steps ending.disagreements) };

    fn fmt<W: fmt::Write>(&self, f: &mut fmt::Formatter<W>) -> fmt::Result {
        let Ending {
            steps,
            disagreements,
        } = *self;
        write!(f, "end steps {steps} disagreements {disagreements}")
    }
}
