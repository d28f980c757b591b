// The laws of specs/Laws.antt (RULES 20.6): a function with no body for each, whose contract it is.
ghost use Rattle.queue.specs.Laws.{SetupLaws, QueueLasts, InTurn, LowestFirst, RefusedByNumber, AnswersInRange};

pub fn setup()
    ensures { SetupLaws }
{}

pub fn queue_lasts()
    ensures { QueueLasts }
{}

pub fn in_turn()
    ensures { InTurn }
{}

pub fn lowest_first()
    ensures { LowestFirst }
{}

// RULES 20.3: a refusal has the number of what refuses.
pub fn refused_by_number()
    ensures { RefusedByNumber }
{}

// RULES 13.3: every answer fits the result word.
pub fn answers_in_range()
    ensures { AnswersInRange }
{}
