// The rules (RULES 2 to 4, 7, 8 and 14) as definitions, in specs/. The functions here have no body: each one's contract is a theorem about them.
#![tactic(auto)]

pub mod limits;

ghost use Rattle.rules.specs.BlockBounds.{BlockBounds};
ghost use Rattle.rules.specs.BlockCases.{BlockCases};
ghost use Rattle.rules.specs.BlockLaws.{BlockLaws};
ghost use Rattle.rules.specs.Condition3.{Condition3, rules_table};
ghost use Rattle.rules.specs.Damage.{BurstIsCaught};
ghost use Rattle.rules.specs.DamageExample.{DamageExample};
ghost use Rattle.rules.specs.Example.{Example};
ghost use Rattle.rules.specs.Interfaces.{Interfaces};
ghost use Rattle.rules.specs.Range.{RangeLaw, NumberLaw, OneLaw};
ghost use Rattle.rules.specs.Reasons.{Reasons};
ghost use Rattle.rules.specs.Refusal.{RefusalLaw};
ghost use Rattle.rules.specs.Samples.{Samples};
ghost use Rattle.rules.specs.SendingLaws.{RecordLaws, SourceLaws, MapLasts, Delivered};
ghost use Rattle.rules.specs.SentLaws.{SentLaws, IdLaws};
ghost use Rattle.rules.specs.Sound.{Lasting};
ghost use Rattle.rules.specs.WhyPremises.{WhyPremises};

// RULES 14.1: condition 3, of the rules' table.
pub fn condition3()
    ensures { Condition3 rules_table }
{}

// RULES 14.15: its premises can be met together.
pub fn condition3_example()
    ensures { Example }
{}

// RULES 14.13: why they are there. For each premise that the statement names, a case in which the claim fails.
pub fn why_premises()
    ensures { WhyPremises }
{}

// RULES 14.18: a burst in a transfer of several frames is caught at the transfer's end, of the rules' table.
pub fn burst_is_caught()
    ensures { BurstIsCaught rules_table }
{}

// RULES 14.19: its premises can be met together, and 17 bits are too many.
pub fn burst_example()
    ensures { DamageExample }
{}

// RULES 5.7: a table of places without a fault stays one.
pub fn table_lasts()
    ensures { Lasting }
{}

// RULES 4.10: what a reception answers is in its range, by number and by value, and number 1 is a hand-out.
pub fn answers_in_range()
    ensures { RangeLaw × (NumberLaw × OneLaw) }
{}

// RULES 4.6: why a frame is passed over. The reasons are complete, and the first that holds is answered.
pub fn reasons_of_passing()
    ensures { Reasons }
{}

// RULES 4.9: a frame that is refused by 2 to 9 or 19 changes no place.
pub fn refusal()
    ensures { RefusalLaw }
{}

// RULES 4.12: the lowest free block, what 26 leaves, that no block is lost or shared, and that which blocks a session has is of no effect.
pub fn blocks_of_table()
    ensures { BlockLaws }
{}

// RULES 4.13: when there is a block.
pub fn enough_blocks()
    ensures { BlockBounds }
{}

// RULES 7.4: the frames of a payload. How many, what each carries, and what the first of them are.
pub fn frames_of_payload()
    ensures { SentLaws }
{}

// RULES 2.5: the ID of a stream and a priority. What is read in it is what was put in.
pub fn id_of_stream()
    ensures { IdLaws }
{}

// RULES 7.5, 7.6: the records of a send. How many, how long, and that each gives its frame back.
pub fn records_of_send()
    ensures { RecordLaws }
{}

// RULES 14.10: what a named source sends is correctly sent. RULES 2.5: what a receiver reads in the ID of an anonymous message.
pub fn source_of_send()
    ensures { SourceLaws }
{}

// RULES 8.6: a transfer-ID map without a fault stays one.
pub fn map_lasts()
    ensures { MapLasts }
{}

// RULES 7.7: what is sent and then received is handed out.
pub fn sent_is_received()
    ensures { Delivered }
{}

// RULES 15.6: cases of the rule for redundant interfaces.
pub fn interface_cases()
    ensures { Interfaces }
{}

// RULES 15.7: cases of the blocks.
pub fn block_cases()
    ensures { BlockCases }
{}

// RULES 15.1: the sample values.
pub fn samples()
    ensures { Samples }
{}
