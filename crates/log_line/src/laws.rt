// The laws of specs/Laws.antt: a function with no body whose contract they are.
ghost use Rattle.log_line.specs.Laws.{LineLaws};

pub fn line()
    ensures { LineLaws }
{}
