// The laws of specs/Laws.antt and the sample values of specs/Samples.antt: a function with no body for each, whose contract it is.
ghost use Rattle.dsdl_signature.specs.Laws.{AnswersInRange};
ghost use Rattle.dsdl_signature.specs.Samples.{Samples};

pub fn answers_in_range()
    ensures { AnswersInRange }
{}

pub fn samples()
    ensures { Samples }
{}
