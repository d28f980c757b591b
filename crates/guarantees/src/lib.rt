// What `receiver::receive` makes of a lent state, as theorems about its contract. The functions here have no body: each one's contract is a theorem.
#![tactic(auto)]

ghost use Rattle.guarantees.specs.Blocks.{BlockLaw};
ghost use Rattle.guarantees.specs.Condition3.{lent_bytes};
ghost use Rattle.guarantees.specs.Example.{LentExample};
ghost use Rattle.guarantees.specs.FromSetup.{FromSetup};
ghost use Rattle.guarantees.specs.Received.{ViewLaw, SoundLaw};
ghost use Rattle.guarantees.specs.Refusal.{RefusalLaws};
ghost use Rattle.guarantees.specs.Run.{RunLaw};
ghost use Rattle.guarantees.specs.Written.{TableLaw};
ghost use Rattle.rules.specs.Condition3.{Condition3};
ghost use Rattle.rules.specs.Damage.{BurstIsCaught};

// RULES 5.7: every table without a fault, with times and data in range, is that of a lent state.
pub fn tables_held()
    ensures { TableLaw }
{}

// RULES 5.7: the state after a reception holds the table that the rules' step leaves, under the same setup.
pub fn reception_by_view()
    ensures { ViewLaw }
{}

// RULES 5.7: a lent state without a fault stays one.
pub fn state_lasts()
    ensures { SoundLaw }
{}

// RULES 4.9: 2 to 9 and 20 leave state and output; every number but 1 leaves the output.
pub fn refusal_in_bytes()
    ensures { RefusalLaws }
{}

// RULES 4.11: a list of receptions is answered as the rules answer it, and leaves a state that holds the rules' table after it.
pub fn run_by_view()
    ensures { RunLaw }
{}

// RULES 4.12: no block of a state is lost or shared over any list of receptions.
pub fn blocks_kept()
    ensures { BlockLaw }
{}

// RULES 14.14: condition 3, of lent bytes.
pub fn condition3_lent()
    ensures { Condition3 lent_bytes }
{}

// RULES 14.15: a case that meets its premises, with the theorem applied.
pub fn condition3_lent_example()
    ensures { LentExample }
{}

// RULES 14.18: a burst is caught, of lent bytes.
pub fn burst_is_caught_lent()
    ensures { BurstIsCaught lent_bytes }
{}

// RULES 5.7, 4.13, 14.14, 14.18: from a call of setup to lists of calls, condition 3 and that bursts are caught among what holds of them.
pub fn setup_then_calls()
    ensures { FromSetup }
{}
