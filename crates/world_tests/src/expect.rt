//! A comparison that is written here once.
use ghost_judge::disagreement::Disagreement;
use std::process::Abort;

/// Compares what differs, or that nothing does.
pub(crate) fn expect_told(
    rt: &impl Abort,
    told: Option<Disagreement>,
    wanted: Option<Disagreement>,
) {
    assert_eq!(rt; told, wanted);
}
