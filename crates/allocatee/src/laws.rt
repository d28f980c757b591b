// The laws of specs/Laws.antt and specs/Meeting.antt (RULES 21.7): a function with no body for each, whose contract it is.
ghost use Rattle.allocatee.specs.Laws.{TakesItsOwn, FollowsItsOwn, AsksAgain, RefusedByNumber};
ghost use Rattle.allocatee.specs.Meeting.{Meeting};

pub fn takes_its_own()
    ensures { TakesItsOwn }
{}

pub fn follows_its_own()
    ensures { FollowsItsOwn }
{}

pub fn asks_again()
    ensures { AsksAgain }
{}

// RULES 21.3, 21.4: a refusal of a message has the number that its description gives.
pub fn refused_by_number()
    ensures { RefusedByNumber }
{}

pub fn meeting()
    ensures { Meeting }
{}
