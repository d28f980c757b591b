// Checking a sender by its capture (RULES 19) as definitions, in specs/. The functions here have no body: each one's contract is a theorem about them.
#![tactic(auto)]

pub mod limits;

ghost use Rattle.judge_rules.specs.Laws.{JudgeLaws, Readings};
ghost use Rattle.judge_rules.specs.Numbers.{NumberLaws};
ghost use Rattle.judge_rules.specs.Samples.{Samples};
ghost use Rattle.judge_rules.specs.Sender.{SenderPasses};
ghost use Rattle.judge_rules.specs.inside.Brief.{SameVerdict};

// RULES 19.9: the verdict passes what is good, and names the first frame after which no continuation could pass.
pub fn judge_laws()
    ensures { JudgeLaws }
{}

// RULES 19.7: what the number of a failure means.
pub fn number_laws()
    ensures { NumberLaws }
{}

// RULES 19.3, 19.4: the checks are a receiver's, and each stream counts once.
pub fn readings()
    ensures { Readings }
{}

// RULES 19.10: a run of our sender passes.
pub fn sender_passes()
    ensures { SenderPasses }
{}

// RULES 19.12: captures and their verdicts.
pub fn samples()
    ensures { Samples }
{}

// Internal. RULES 19.8: the pass that keeps no bytes gives the same verdict.
pub fn same_verdict()
    ensures { SameVerdict }
{}
