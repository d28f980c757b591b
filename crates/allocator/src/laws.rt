// The laws of specs/Laws.antt and specs/Service.antt, and the facts of specs/Samples.antt: a function with no body for each, whose contract it is.
ghost use Rattle.allocator.specs.Laws.{SetupLaws, StateLasts, TableGrows, SameIdAgain, IdGiven, IdsDiffer, TurnedAway, RefusedByNumber, AnswersInRange};
ghost use Rattle.allocator.specs.Samples.{Samples};
ghost use Rattle.allocator.specs.Service.{Service};

// RULES 16.10: an allocator that was set up.
pub fn setup()
    ensures { SetupLaws }
{}

// RULES 16.11, here and below.
pub fn state_lasts()
    ensures { StateLasts }
{}

pub fn table_grows()
    ensures { TableGrows }
{}

pub fn same_id_again()
    ensures { SameIdAgain }
{}

pub fn id_given()
    ensures { IdGiven }
{}

pub fn ids_differ()
    ensures { IdsDiffer }
{}

pub fn turned_away()
    ensures { TurnedAway }
{}

pub fn service()
    ensures { Service }
{}

// RULES 16.3, 16.6: a refusal of a message has the number that its description gives.
pub fn refused_by_number()
    ensures { RefusedByNumber }
{}

// RULES 13.3: every answer fits the result word.
pub fn answers_in_range()
    ensures { AnswersInRange }
{}

pub fn samples()
    ensures { Samples }
{}
