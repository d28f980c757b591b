// The return trips of specs/Laws.antt and the facts of specs/Samples.antt: a function with no body for each, whose contract they are.
ghost use Rattle.protocol_param.specs.Laws.{Laws};
ghost use Rattle.protocol_param.specs.Samples.{Samples};

pub fn trips()
    ensures { Laws }
{}

pub fn samples()
    ensures { Samples }
{}
