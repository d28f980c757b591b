// The laws of specs/Laws.antt: a function with no body whose contract they are.
ghost use Rattle.sender.specs.Laws.{SendLaws};

pub fn send()
    ensures { SendLaws }
{}
