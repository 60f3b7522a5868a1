//! What holds of a log.

ghost use Rattle.cdf_journal.specs.Laws.{RecoversAgain};

/// Whatever a crash left of a file that was being filled from its log, the log makes the same file of it.
#[tactic(auto, using(crate::proofs::Journalled::recovers_again))]
pub fn recovers_again()
    ensures { RecoversAgain }
{}
