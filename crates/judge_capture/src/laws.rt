// The laws of specs/Laws.antt: functions with no body, whose contracts they are.
ghost use Rattle.judge_capture.specs.Laws.{VerdictLaws, FrameLaws, SenderLaws};

pub fn verdict()
    ensures { VerdictLaws }
{}

pub fn frames()
    ensures { FrameLaws }
{}

pub fn sender()
    ensures { SenderLaws }
{}
