// The trailer of a capture (RULES 18.2).
ghost use Rattle.std.specs.Prelude.{◌≡◌, false, ◌&&◌, ◌+◌, ◌*◌, ◌≤◌, ◌<◌, ◌^◌, eqb, length, MatchOption};
ghost use Rattle.bits.specs.Part.{splice};
ghost use Rattle.capture_convert.specs.Capture.{trailer_size, sum_of, trailer_of, formed, trailed};
ghost use Rattle.capture_convert.specs.inside.Walks.{Read, Located};

// The bytes of a trailer.
pub const SIZE: usize = 16;

// "CT" as a number, low byte first.
const MARK: u64 = 0x5443;

// A trailer with the right mark and distance that was read: the count, and the checksum.
#[derive(Clone, Copy)]
pub struct Trailer {
    pub count: usize,
    pub sum: u64,
}

// Internal. The checksum of records.
pub fn sum(records: &[u8]) -> u16
    ensures { result ≡ sum_of records.now }
{
    checksum::crc16::over(0xFFFF, records)
}

// Internal. The trailer, from `at` on.
pub fn put(out: &mut [u8], at: usize, count: usize, sum: u16)
    requires { (at + trailer_size ≤ length out.old) × (count < 2 ^ 32) }
    ensures { out.new ≡ splice out.old at (trailer_of count sum) }
{
    let n = count as u64;
    bits::le::put_at(out, at, 8, n * 21);
    bits::le::put_at(out, at + 8, 4, n);
    bits::le::put_at(out, at + 12, 2, sum as u64);
    bits::le::put_at(out, at + 14, 2, MARK);
}

// The mark and the distance are right.
fn is_formed(mark: u64, distance: u64, size: u64) -> bool
    ensures { result ≡ (eqb mark 0x5443 && eqb distance size) }
{
    if mark == MARK {
        return distance == size;
    }
    false
}

// Internal. Reads a trailer of 16 bytes; None if mark or distance is wrong.
pub fn read(t: &[u8]) -> Option<Trailer>
    requires { length t.now ≡ trailer_size }
    ensures { MatchOption result (formed t.now ≡ false) (Read t.now) }
{
    let distance = bits::le::get_at(t, 0, 8);
    let count = bits::le::get_at(t, 8, 4);
    let size = count * 21;
    let mark = bits::le::get_at(t, 14, 2);
    if !is_formed(mark, distance, size) {
        return None;
    }
    Some(Trailer {
        count: count as usize,
        sum: bits::le::get_at(t, 12, 2),
    })
}

// Internal. Finds the records of a capture by its trailer: where the first begins. None if the trailer is not right.
pub fn find(c: &[u8]) -> Option<usize>
    ensures { MatchOption result (trailed c.now ≡ false) (Located c.now) }
{
    let n = c.len();
    if n < SIZE {
        return None;
    }
    let end = n - SIZE;
    let t = read(&c[end..n])?;
    let size = t.count * capture_record::SIZE;
    if end < size {
        return None;
    }
    let from = end - size;
    if sum(&c[from..end]) as u64 == t.sum {
        return Some(from);
    }
    None
}
