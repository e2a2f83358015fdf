// Laws of the judgement, and the law of what is due.

ghost use Rattle.je_top.specs.Due.{OneOutcomeIsDue};
ghost use Rattle.je_top.specs.Judgement.{AcceptedIsOne, BreaksAreOne, VerdictIsOne};

/// The same files under the same rows have one verdict: they are accepted, or don't fit, or are refused with one list
/// of findings.
pub fn verdict_is_one()
    ensures { VerdictIsOne }
{}

/// The same files under the same rows come to one accepted program, under one list of names.
pub fn accepted_is_one()
    ensures { AcceptedIsOne }
{}

/// The same files under the same rows have one list of breaks.
pub fn breaks_are_one()
    ensures { BreaksAreOne }
{}

/// Over files that tell, one outcome is due, reads that fail aside.
pub fn one_outcome_is_due()
    ensures { OneOutcomeIsDue }
{}
