//! Laws of findings. Each function does nothing, and its contract is the law.
ghost use Rattle.image_findings.specs.Laws.{AreBorrowed, AreShared, HaveOneBorrower, HaveOneOwner};

/// If no clash is named, a frame has one owner and one borrower at most.
pub fn one_each()
    ensures owner { HaveOneOwner }
    ensures borrower { HaveOneBorrower }
{}

/// If no share is named, each frame that is shared has a borrower.
pub fn all_borrowed()
    ensures { AreBorrowed }
{}

/// If no borrower is named, each frame that is borrowed is shared.
pub fn all_shared()
    ensures { AreShared }
{}
