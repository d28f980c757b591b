// The laws of specs/Laws.antt and the facts of specs/Samples.antt: a function with no body for each, whose contract they are.
ghost use Rattle.shape.specs.Laws.{There, Kept, Back, Same, Unions, Tails, ByteLists, CastLaws};
ghost use Rattle.shape.specs.Samples.{Samples};

pub fn there()
    ensures { There }
{}

pub fn kept()
    ensures { Kept }
{}

pub fn back()
    ensures { Back }
{}

pub fn same()
    ensures { Same }
{}

pub fn unions()
    ensures { Unions }
{}

pub fn tails()
    ensures { Tails }
{}

pub fn byte_lists()
    ensures { ByteLists }
{}

pub fn casts()
    ensures { CastLaws }
{}

pub fn samples()
    ensures { Samples }
{}
