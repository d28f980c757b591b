// The laws of specs/Laws.antt: a function with no body whose contract they are.
ghost use Rattle.batch.specs.Laws.{BatchLaws};

pub fn calls()
    ensures { BatchLaws }
{}
