// The laws of specs/Laws.antt: a function with no body, whose contract they are.
ghost use Rattle.patch.specs.Laws.{PatchLaws};

pub fn patching()
    ensures { PatchLaws }
{}
