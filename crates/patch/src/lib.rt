// Correcting the checksum of a transfer for a byte that is rewritten in passing (RULES 6.7).
#![tactic(auto)]

pub mod laws;

ghost use Rattle.std.specs.Prelude.{◌≡◌, ◌∷◌, ◌≤◌, ◌<◌, replicate, Err};
ghost use Rattle.checksum.specs.Crc.{shift, crc_over};
ghost use Rattle.checksum.specs.Crc16.{ccitt};
ghost use Rattle.patch.specs.Answer.{number_of};
ghost use Rattle.patch.specs.Patch.{patches};
ghost use Rattle.patch.specs.inside.Powers.{IsPowers, product_of};

// `TooLong`: with so many bytes after it the byte is in no payload of at most 512.
#[derive(Clone, Copy, Debug, PartialEq, Eq)]
pub enum PatchError {
    TooLong,
}

impl PatchError {
    pub fn number(self) -> u32
        ensures { result ≡ number_of (Err self) }
    {
        match self {
            PatchError::TooLong => 11,
        }
    }
}

// The powers of x by which a byte goes up with 0 to 31 bytes after it.
fn near() -> [u16; 32]
    ensures { IsPowers 16 8 32 result }
{
    NEAR
}

// The powers by which it goes up with 0 to 15 times 32 bytes more.
fn far() -> [u16; 16]
    ensures { IsPowers 0 256 16 result }
{
    FAR
}

// One place up; the polynomial once more for a one that leaves at the top. At 16 bits a product says so, where `crc64` of `checksum` branches.
fn up(c: u16) -> u16
    ensures { result ≡ shift ccitt c }
{
    (c << 1) ^ ((c >> 15) * 0x1021)
}

// The product of v, which has so many bits, and w.
fn product(bits: u8, v: u16, w: u16) -> u16
    requires { bits ≤ 16 }
    ensures { result ≡ product_of bits v w }
{
    let mut r: u16 = 0;
    for k in (0..bits).rev() {
        let x = (v >> k) % 2;
        r = up(r) ^ (x * w);
    }
    r
}

// What a byte leaves in a register of 0 with n bytes of 0 after it: one product for n % 32 of them, one for the rest.
fn spread(d: u8, n: usize) -> u16
    requires { n < 512 }
    ensures { result ≡ crc_over ccitt 0 (d ∷ replicate n 0) }
{
    let a = near();
    let r = product(8, d as u16, a[n % 32]);
    let b = far();
    product(16, r, b[n / 32])
}

// The checksum after the byte `old` of a payload, with `after` bytes behind it, became `new`.
pub fn patch(checksum: u16, old: u8, new: u8, after: usize) -> Result<u16, PatchError>
    ensures { result ≡ patches checksum old new after }
{
    if rules::limits::PAYLOAD <= after {
        return Err(PatchError::TooLong);
    }
    Ok(checksum ^ spread(old ^ new, after))
}

const NEAR: [u16; 32] = [
    0x1021, 0x3331, 0x3730, 0x76B4, 0xAA51, 0x45A0, 0xB861, 0x47D3, 0xEB23, 0x6F45, 0xD849, 0x0375,
    0x4563, 0x7B61, 0xAEFC, 0xA824, 0x10E2, 0xF031, 0xDE1F, 0x35B3, 0xD5F6, 0x6DD8, 0x650B, 0x3703,
    0x45B4, 0xAC61, 0x1566, 0x2494, 0xF0E6, 0x091F, 0x8E29, 0x5946,
];

const FAR: [u16; 16] = [
    0x0001, 0x8E29, 0x13FC, 0x106F, 0x36C4, 0x30DF, 0x2764, 0x46CF, 0xFD50, 0x0323, 0xAEA0, 0x1911,
    0x9A40, 0x4494, 0x0193, 0x9427,
];
