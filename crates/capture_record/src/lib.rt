// The records of a capture (RULES 18.1): one read, with the test that a line of a log can carry it (18.4), and one written.
#![tactic(auto)]

ghost use Rattle.std.specs.Prelude.{◌≡◌, ◌+◌, ◌≤◌, length};
ghost use Rattle.bits.specs.Order.{Octets};
ghost use Rattle.bits.specs.Part.{splice};
ghost use Rattle.capture_record.specs.Record.{record_size, stamp_of, size_of, carriable};
ghost use Rattle.capture_record.specs.inside.Stamped.{Read, record_with};

use log_line::read::Line;

// The bytes of a record.
pub const SIZE: usize = 21;

// A record that was read: whether a line can carry it, and what it says; its data are the `len` bytes after its first 13.
// A flag: what the record says holds either way, and is shown where no line can carry it.
#[derive(Drop)]
pub struct Stamped {
    pub ok: bool,
    pub time: u64,
    pub id: u32,
    pub len: usize,
}

// A line can carry a record of this time and number of data bytes.
fn is_carriable(r: &[u8], time: u64, len: usize) -> bool
    requires { (length r.now ≡ record_size) × ((time ≡ stamp_of r.now) × (len ≡ size_of r.now)) }
    ensures { result ≡ carriable r.now }
{
    if 8 < len {
        return false;
    }
    if 0 < bits::le::get_at(r, 13 + len, 8 - len) {
        return false;
    }
    if 0 < time % 1_000 {
        return false;
    }
    time < 1_000_000_000_000_000
}

// Internal. Reads a record of 21 bytes.
pub fn read(r: &[u8]) -> Stamped
    requires { length r.now ≡ record_size }
    ensures { Read r.now result }
{
    let time = bits::le::get_at(r, 0, 8);
    let f = frame::record::get(r, 8);
    let len = f.len;
    Stamped {
        ok: is_carriable(r, time, len),
        time: time,
        id: f.id,
        len: len,
    }
}

// Internal. The record of a line that was read, from `at` on.
pub fn put(out: &mut [u8], at: usize, l: Line)
    requires { (at + record_size ≤ length out.old) × ((l.len ≤ 8) × ((length l.bytes ≡ 8) × Octets l.bytes)) }
    ensures { out.new ≡ splice out.old at (record_with l) }
{
    let bytes = l.bytes;
    bits::le::put_at(out, at, 8, l.time);
    frame::record::put(out, at + 8, l.id, l.len, bits::le::get_at(&bytes, 0, 8));
}
