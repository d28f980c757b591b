// The laws of specs/Laws.antt and specs/Samples.antt: functions with no body, whose contracts they are.
ghost use Rattle.capture_convert.specs.Laws.{Trips, Lengths, Parts};
ghost use Rattle.capture_convert.specs.Samples.{Samples};

pub fn trips()
    ensures { Trips }
{}

pub fn lengths()
    ensures { Lengths }
{}

pub fn parts()
    ensures { Parts }
{}

pub fn samples()
    ensures { Samples }
{}
