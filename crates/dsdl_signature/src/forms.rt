// The forms of the definitions, one after the other (RULES 17.9, 17.12).
ghost use Rattle.std.specs.Prelude.{◌≡◌, ◌+◌, ◌≤◌, length, get_or};
ghost use Rattle.bits.specs.Part.{splice};
ghost use Rattle.checksum.specs.Signature.{hash_from};
ghost use Rattle.dsdl_given.specs.inside.Places.{Holds, Inside};
ghost use Rattle.dsdl_nesting.specs.inside.Kept.{Hashes};
ghost use Rattle.dsdl_signature.specs.inside.Written.{joined, form_at, Named, Ends};

use checksum::crc64;
use dsdl_form::form;
use dsdl_given::places;
use dsdl_given::places::{BOUNDS, DEFINITIONS};

// Of eight forms, one after the other.
pub const ENDS: usize = 9;

// Internal. Where the forms of n definitions end: form i goes from end i to the next one.
pub fn ends(source: &[u8], bounds: [usize; BOUNDS], n: usize) -> [usize; ENDS]
    requires { Inside source.now bounds n × Named source.now bounds n }
    ensures { Ends source.now bounds result n }
{
    let mut ends = [0usize; ENDS];
    let mut at = 0;
    for i in 0..n {
        at += form::length(
            places::name(source, bounds, i),
            places::text(source, bounds, i),
        );
        ends[i + 1] = at;
    }
    ends
}

// The form of definition i, from `at` on, and its hash.
fn put(source: &[u8], bounds: [usize; BOUNDS], i: usize, out: &mut [u8], at: usize) -> u64
    requires { Holds source.now bounds i × (at + length (form_at source.now bounds i) ≤ length out.old) }
    ensures { (out.new ≡ splice out.old at (form_at source.now bounds i)) × (result ≡ hash_from 0 (form_at source.now bounds i)) }
{
    let end = form::write(
        places::name(source, bounds, i),
        places::text(source, bounds, i),
        out,
        at,
    );
    crc64::hash_from(0, &out[at..end])
}

// Internal. The forms of n definitions, and their hashes.
pub fn write(
    source: &[u8],
    bounds: [usize; BOUNDS],
    n: usize,
    ends: [usize; ENDS],
    out: &mut [u8],
) -> [u64; DEFINITIONS]
    requires { Inside source.now bounds n × (Ends source.now bounds ends n × (get_or ends n 0 ≤ length out.old)) }
    ensures { (out.new ≡ splice out.old 0 (joined (form_at source.now bounds) 0 n)) × Hashes source.now bounds n result }
{
    let mut hashes = [0u64; DEFINITIONS];
    for i in 0..n {
        hashes[i] = put(source, bounds, i, out, ends[i]);
    }
    hashes
}
