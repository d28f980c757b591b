// The record of a frame (RULES 2.6): ID, data length, data. Data bytes go as one number, low byte first: those that are not used are its zeros.
ghost use Rattle.std.specs.Prelude.{◌≡◌, ◌∷◌, ◌++◌, ◌+◌, ◌≤◌, length, take, get_or};
ghost use Rattle.bits.specs.Little.{le, le_bytes};
ghost use Rattle.bits.specs.Part.{span, splice};
ghost use Rattle.rules.specs.Limits.{frame_record, frame_data, frame_payload};
ghost use Rattle.rules.specs.Sent.{framed};

// What a record says: the ID, and how many data bytes there are; these are the ones after its first five. Nothing is checked.
#[derive(Drop)]
pub struct Found {
    pub id: u32,
    pub len: usize,
}

// Internal. The first k bytes of p and the tail byte after them, as one number. The loop of `bits::le` starts from 0, and so needs no bound on a start.
pub fn word(p: &[u8], k: usize, tail: u8) -> u64
    requires { (k ≤ frame_payload) × (k ≤ length p.now) }
    ensures { result ≡ le (framed (take k p.now) tail) }
{
    let mut v = bits::le::wide(tail);
    for i in (0..k).rev() {
        v = v * 256 + bits::le::wide(p[i]);
    }
    v
}

// Internal. One record from `at` on: n data bytes.
pub fn put(out: &mut [u8], at: usize, id: u32, n: usize, word: u64)
    requires { (at + frame_record ≤ length out.old) × (n ≤ frame_data) }
    ensures { out.new ≡ splice out.old at (le_bytes 4 id ++ (n ∷ le_bytes 8 word)) }
{
    bits::le::put_u32(out, at, id);
    bits::le::put_at(out, at + 4, 1, n as u64);
    bits::le::put_u64(out, at + 5, word);
}

// Internal. The record from `at` on.
pub fn get(s: &[u8], at: usize) -> Found
    requires { at + frame_record ≤ length s.now }
    ensures { (result.id ≡ le (span s.now at 4)) × (result.len ≡ get_or s.now (at + 4) 0) }
{
    let j = at + 4;
    Found {
        id: bits::le::get_u32(s, at),
        len: bits::le::wide(s[j]) as usize,
    }
}
