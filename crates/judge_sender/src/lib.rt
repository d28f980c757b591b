// Our own sender on lent bytes under the verdict (RULES 19.10). The function has no body: its contract is the theorem.
#![tactic(auto)]

ghost use Rattle.judge_sender.specs.Lent.{SenderLaws};

pub fn passes()
    ensures { SenderLaws }
{}
