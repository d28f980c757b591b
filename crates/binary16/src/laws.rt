// The laws of specs/Laws.antt and the facts of specs/Samples.antt: a function with no body for each, whose contract they are.
ghost use Rattle.binary16.specs.Laws.{Widening, Narrowing, Floats};
ghost use Rattle.binary16.specs.Samples.{Samples};

pub fn widening()
    ensures { Widening }
{}

pub fn narrowing()
    ensures { Narrowing }
{}

pub fn floats()
    ensures { Floats }
{}

pub fn samples()
    ensures { Samples }
{}
