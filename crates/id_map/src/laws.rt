// The laws of specs/Laws.antt: a function with no body whose contract they are.
ghost use Rattle.id_map.specs.Laws.{SetupLaws};

pub fn setup()
    ensures { SetupLaws }
{}
