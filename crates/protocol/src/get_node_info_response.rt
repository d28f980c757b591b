// GetNodeInfo's response (service 1; RULES 10.7).
ghost use Rattle.std.specs.Prelude.{◌≡◌, ◌+◌, ◌≤◌, length};
ghost use Rattle.bits.specs.Order.{unpack, store};
ghost use Rattle.shape.specs.Answer as answer;
ghost use Rattle.shape.specs.Answer.{answer_of};
ghost use Rattle.shape.specs.Shape as shape;
ghost use Rattle.shape.specs.Shape.{end, written};
ghost use Rattle.protocol.specs.NodeStatus.{status_then};
ghost use Rattle.protocol.specs.GetNodeInfoResponse.{versions_then, lists, response, certificate_length, unique_id_in, certificate_in, name_in, number_values, response_in, numbers_at};

use super::name::is_name;
use super::node_status;
use super::node_status::NodeStatus;
use bits::{field, width};
use shape::answer::{Place, Refusal};
use shape::{number, part};

#[derive(Drop)]
pub struct SoftwareVersion {
    pub major: i64,
    pub minor: i64,
    pub optional_field_flags: i64,
    pub vcs_commit: i64,
    pub image_crc: u64,
}

#[derive(Drop)]
pub struct HardwareVersion {
    pub major: i64,
    pub minor: i64,
    pub unique_id: Place,
    pub certificate_of_authenticity: Place,
}

#[derive(Drop)]
pub struct Response {
    pub status: NodeStatus,
    pub software_version: SoftwareVersion,
    pub hardware_version: HardwareVersion,
    pub name: Place,
}

// A response but for its lists, which a writer is given as slices.
#[derive(Drop)]
pub struct Numbers {
    pub status: NodeStatus,
    pub software_version: SoftwareVersion,
    pub hardware_version_major: i64,
    pub hardware_version_minor: i64,
}

// What the certificate's length field says; 0 where the payload ends before it.
fn certificate_length(payload: &[u8]) -> usize
    ensures { result ≡ certificate_length payload.now }
{
    if payload.len() < 41 {
        return 0;
    }
    field::read(payload, 320, width::width(255) as usize) as usize
}

// The unique ID, as a part of the payload: the 16 bytes from byte 24 on.
pub fn unique_id(payload: &[u8]) -> &[u8]
    ensures { result.now ≡ unique_id_in payload.now }
{
    part::within(payload, 24, 16)
}

// The certificate, as a part of the payload: from byte 41 on, as long as its length field says.
pub fn certificate_of_authenticity(payload: &[u8]) -> &[u8]
    ensures { result.now ≡ certificate_in payload.now }
{
    part::within(payload, 41, certificate_length(payload))
}

// The name, as a part of the payload: all after the certificate.
pub fn name(payload: &[u8]) -> &[u8]
    ensures { result.now ≡ name_in payload.now }
{
    part::behind(payload, 41 + certificate_length(payload))
}

// The numbers in the first 24 bytes.
fn read_numbers(s: &[u8]) -> Numbers
    requires { 24 ≤ length s.now }
    ensures { result ≡ numbers_at (unpack s.now) }
{
    Numbers {
        status: node_status::read_front(s),
        software_version: SoftwareVersion {
            major: number::read(s, 56, 8),
            minor: number::read(s, 64, 8),
            optional_field_flags: number::read(s, 72, 8),
            vcs_commit: number::read(s, 80, 32),
            image_crc: field::read(s, 112, 64),
        },
        hardware_version_major: number::read(s, 176, 8),
        hardware_version_minor: number::read(s, 184, 8),
    }
}

// Reads a response: 15 for a payload that ends too early, 16 for a name that is too long, 17 for one that is none.
pub fn decode(payload: &[u8]) -> Result<Response, Refusal>
    ensures { answer_of result ≡ response_in payload.now }
{
    let at = 41 + certificate_length(payload);
    if payload.len() < at {
        return Err(Refusal::TooShort);
    }
    let n = name(payload);
    let len = n.len();
    if 80 < len {
        return Err(Refusal::TooLong);
    }
    if !is_name(n) {
        return Err(Refusal::NotAllowed);
    }
    let m = read_numbers(payload);
    let status = m.status;
    let software_version = m.software_version;
    Ok(Response {
        status,
        software_version,
        hardware_version: HardwareVersion {
            major: m.hardware_version_major,
            minor: m.hardware_version_minor,
            unique_id: Place {
                at: 24,
                len: unique_id(payload).len(),
            },
            certificate_of_authenticity: Place {
                at: 41,
                len: certificate_of_authenticity(payload).len(),
            },
        },
        name: Place { at, len },
    })
}

// Every list fits.
fn lists_fit(unique_id: &[u8], certificate: &[u8], name: &[u8]) -> bool
    ensures { result ≡ shape.fits lists (unique_id.now, (certificate.now, name.now)) }
{
    if unique_id.len() != 16 {
        return false;
    }
    if 255 < certificate.len() {
        return false;
    }
    if 80 < name.len() {
        return false;
    }
    is_name(name)
}

// The 192 bits of the numbers, from the front.
fn write_numbers(out: &mut [u8], m: Numbers)
    requires { 24 ≤ length out.old }
    ensures { out.new ≡ store out.old 0 (shape.encode (status_then (versions_then end)) (number_values m end tt)) }
{
    let s = m.status;
    let v = m.software_version;
    node_status::write_front(out, s);
    number::write(out, 56, 8, v.major);
    number::write(out, 64, 8, v.minor);
    number::write(out, 72, 8, v.optional_field_flags);
    number::write(out, 80, 32, v.vcs_commit);
    field::write(out, 112, 64, v.image_crc);
    number::write(out, 176, 8, m.hardware_version_major);
    number::write(out, 184, 8, m.hardware_version_minor);
}

// The bits of the lists, after the numbers.
fn write_lists(out: &mut [u8], unique_id: &[u8], certificate: &[u8], name: &[u8])
    requires { (length unique_id.now ≡ 16) × (41 + length certificate.now + length name.now ≤ length out.old) }
    ensures { out.new ≡ store out.old 192 (shape.encode lists (unique_id.now, (certificate.now, name.now))) }
{
    field::write_bytes(out, 24, unique_id);
    field::write(
        out,
        320,
        width::width(255) as usize,
        certificate.len() as u64,
    );
    field::write_bytes(out, 41, certificate);
    field::write_bytes(out, 41 + certificate.len(), name);
}

// Writes a response to the front of `out`, numbers saturated: 17 for a list that does not fit and for what is no name, then 8 for too little
// room.
pub fn encode(
    m: Numbers,
    unique_id: &[u8],
    certificate_of_authenticity: &[u8],
    name: &[u8],
    out: &mut [u8],
) -> Result<usize, Refusal>
    ensures { (answer.answer_of result, out.new) ≡ written response (number_values m lists (unique_id.now, (certificate_of_authenticity.now, name.now))) out.old }
{
    if !lists_fit(unique_id, certificate_of_authenticity, name) {
        return Err(Refusal::NotAllowed);
    }
    let n = 41 + certificate_of_authenticity.len() + name.len();
    if out.len() < n {
        return Err(Refusal::NoRoom);
    }
    write_numbers(out, m);
    write_lists(out, unique_id, certificate_of_authenticity, name);
    Ok(n)
}
