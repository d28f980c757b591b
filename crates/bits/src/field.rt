// One field of a serialized message (RULES 9.2): the bits of a number at any place of a slice, an octet at a time.
ghost use Rattle.std.specs.Prelude.{◌≡◌, ◌+◌, ◌*◌, ◌%◌, ◌^◌, ◌≤◌, ◌<◌, length, take, drop, get_or};
ghost use Rattle.bits.specs.Order.{digits, value, unpack, to_bits, from_bits, store};
ghost use Rattle.bits.specs.inside.Window.{patched};

use super::le::wide;

fn power(k: usize) -> u64
    requires { k < 64 }
    ensures { result ≡ 2 ^ k }
{
    1u64 << k
}

fn lowest(x: u64, k: usize) -> u64
    requires { k < 64 }
    ensures { result ≡ x % 2 ^ k }
{
    x % power(k)
}

// Two bytes, the first one high.
fn pair(s: &[u8], i: usize) -> u64
    requires { i + 1 < length s.now }
    ensures { result ≡ get_or s.now i 0 * 256 + get_or s.now (i + 1) 0 }
{
    let j = i + 1;
    wide(s[i]) * 256 + wide(s[j])
}

// The k bits from bit `at` on, at most an octet: they lie in one byte or in two.
fn octet(s: &[u8], at: usize, k: usize) -> u64
    requires { (k ≤ 8) × (at + k ≤ length s.now * 8) }
    ensures { result ≡ value (take k (drop at (unpack s.now))) }
{
    if k == 0 {
        return 0;
    }
    let i = at / 8;
    let end = at % 8 + k;
    if end <= 8 {
        return lowest(wide(s[i]) >> (8 - end), k);
    }
    lowest(pair(s, i) >> (16 - end), k)
}

// Internal. The number of the w bits from bit `at` on.
pub fn read(s: &[u8], at: usize, w: usize) -> u64
    requires { (w ≤ 64) × ((at < 2 ^ 63) × (at + w ≤ length s.now * 8)) }
    ensures { result ≡ from_bits w (drop at (unpack s.now)) }
{
    let q = w / 8;
    let mut v = octet(s, at + q * 8, w % 8);
    for i in (0..q).rev() {
        v = v * 256 + octet(s, at + i * 8, 8);
    }
    v
}

// The number x with v in the place of the k bits above its r lowest.
fn patch(x: u64, r: usize, k: usize, v: u64) -> u64
    requires { (x < 65536) × ((r + k ≤ 16) × (v < 2 ^ k)) }
    ensures { result ≡ patched x r k v }
{
    let unit = power(r);
    let old = lowest(x >> r, k);
    x - old * unit + v * unit
}

// The k lowest bits of v, at most an octet, stored from bit `at` on.
fn put_octet(s: &mut [u8], at: usize, k: usize, v: u64)
    requires { (k ≤ 8) × (at + k ≤ length s.old * 8) }
    ensures { s.new ≡ store s.old at (digits k v) }
{
    if k == 0 {
        return;
    }
    let i = at / 8;
    let end = at % 8 + k;
    let low = lowest(v, k);
    if end <= 8 {
        let x = patch(wide(s[i]), 8 - end, k, low);
        s[i] = (x % 256) as u8;
        return;
    }
    let j = i + 1;
    let x = patch(pair(s, i), 16 - end, k, low);
    s[i] = (x / 256 % 256) as u8;
    s[j] = (x % 256) as u8;
}

// Internal. The w lowest bits of v, stored from bit `at` on.
pub fn write(s: &mut [u8], at: usize, w: usize, v: u64)
    requires { (w ≤ 64) × ((at < 2 ^ 63) × (at + w ≤ length s.old * 8)) }
    ensures { s.new ≡ store s.old at (to_bits w v) }
{
    let q = w / 8;
    let mut x = v;
    for i in 0..q {
        put_octet(s, at + i * 8, 8, x);
        x /= 256;
    }
    put_octet(s, at + q * 8, w % 8, x);
}

// All of src into dst, which is as long.
fn copy(dst: &mut [u8], src: &[u8])
    requires { length dst.old ≡ length src.now }
    ensures { dst.new ≡ src.now }
{
    // a loop, since an archive with `copy_from_slice` needs memmove
    for i in 0..src.len() {
        dst[i] = src[i];
    }
}

// Internal. The bytes of src as bits, stored from byte `at` on: a list of 8-bit items that starts at a whole byte.
pub fn write_bytes(s: &mut [u8], at: usize, src: &[u8])
    requires { at + length src.now ≤ length s.old }
    ensures { s.new ≡ store s.old (at * 8) (unpack src.now) }
{
    copy(&mut s[at..at + src.len()], src);
}
