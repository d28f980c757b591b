// The sample values of specs/Samples.antt: a function with no body whose contract they are.
ghost use Rattle.dsdl.specs.Samples.{Samples};

pub fn samples()
    ensures { Samples }
{}
