// The call (RULES 17.12).
ghost use Rattle.std.specs.Prelude.{◌≡◌, true, false, ◌*◌, ◌/◌, ◌≤◌, length, get_or};
ghost use Rattle.std.proofs.Math.Option.{none};
ghost use Rattle.bits.specs.Part.{splice};
ghost use Rattle.dsdl_given.specs.Given.{name_twice, fault_from};
ghost use Rattle.dsdl_given.specs.inside.Places.{given, Inside};
ghost use Rattle.dsdl_nesting.specs.Nesting.{all_given};
ghost use Rattle.dsdl_signature.specs.Call.{forms as forms_of, records_of, record_size, returned, ordered as ordered_of, result_of, signatures as signatures_of};
ghost use Rattle.dsdl_signature.specs.inside.Written.{Ends};

use super::answer::{Answer, Refusal};
use super::forms::ENDS;
use super::records::RECORD;
use super::{fault, forms, records};
use dsdl_given::places::BOUNDS;
use dsdl_given::{oversized, places};
use dsdl_nesting::{marks, signature};

// All forms and records.
fn write(
    source: &[u8],
    bounds: [usize; BOUNDS],
    n: usize,
    ends: [usize; ENDS],
    out: &mut [u8],
    records: &mut [u8],
)
    requires inside { Inside source.now bounds n × (all_given (given source.now bounds n) ≡ true) }
    requires ends { Ends source.now bounds ends n × ((get_or ends n 0 ≤ length out.old) × (n * record_size ≤ length records.old)) }
    ensures { (out.new ≡ splice out.old 0 (forms_of (given source.now bounds n))) × (records.new ≡ splice records.old 0 (records_of (given source.now bounds n) (given source.now bounds n))) }
{
    let hashes = forms::write(source, bounds, n, ends, out);
    let signatures = signature::all(source, bounds, n, hashes);
    records::write(ends, signatures, n, records);
}

// Definitions in the grammar.
fn ordered(
    source: &[u8],
    bounds: [usize; BOUNDS],
    n: usize,
    out: &mut [u8],
    records: &mut [u8],
) -> Answer
    requires inside { Inside source.now bounds n × (name_twice (given source.now bounds n) ≡ false) }
    requires n_value { fault_from 1 (given source.now bounds n) ≡ none }
    ensures { returned result out.new records.new ≡ result_of (ordered_of (given source.now bounds n) (length out.old) (length records.old / record_size)) (given source.now bounds n) out.old records.old }
{
    if !marks::all_given(source, bounds, n) {
        return Err(Refusal::Missing);
    }
    if !marks::all_within(source, bounds, n) {
        return Err(Refusal::Deep);
    }
    let ends = forms::ends(source, bounds, n);
    if out.len() < ends[n] {
        return Err(Refusal::Short);
    }
    if records.len() / RECORD < n {
        return Err(Refusal::Short);
    }
    write(source, bounds, n, ends, out, records);
    Ok(())
}

// Forms and signatures of type definitions. The source has the first name, the first text, the second name and so on; `lengths` has four
// bytes for the length of each, low byte first. The forms go to `out` one after the other, and to `records` twelve bytes for each definition:
// the length of its form (4) and its signature (8), low bytes first.
pub fn signatures(source: &[u8], lengths: &[u8], out: &mut [u8], records: &mut [u8]) -> Answer
    ensures { returned result out.new records.new ≡ signatures_of source.now lengths.now out.old records.old }
{
    if oversized::is_oversized(source, lengths) {
        return Err(Refusal::Oversized);
    }
    let n = lengths.len() / 8;
    let bounds = places::bounds(lengths, n);
    if let Some(fault) = fault::first(source, bounds, n) {
        return Err(Refusal::Faulty(fault));
    }
    ordered(source, bounds, n, out, records)
}
