// The laws of specs/Laws.antt: a function with no body whose contract they are.
ghost use Rattle.setup.specs.Laws.{SetupLaws};

pub fn setup()
    ensures { SetupLaws }
{}
