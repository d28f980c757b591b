// The laws of specs/Laws.antt: a function with no body for each, whose contract is the law.
ghost use Rattle.bits.specs.Laws.{FieldLaws, WidthLaw, LittleLaw};

pub fn field()
    ensures { FieldLaws }
{}

pub fn width()
    ensures { WidthLaw }
{}

pub fn little()
    ensures { LittleLaw }
{}
