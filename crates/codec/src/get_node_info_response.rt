// GetNodeInfo's response by hand.
ghost use Rattle.std.specs.Prelude.{◌≤◌, length};

use codec_text::answer::Encoded;
use codec_text::{answer, fields, names};
use console::Console;
use protocol::get_node_info_response;
use protocol::get_node_info_response::{HardwareVersion, Numbers, SoftwareVersion};
use protocol::node_status::NodeStatus;
use shape::answer::Refusal;

const NAMES: [u8; 356] =
    *b"status.uptime_sec status.health status.mode status.sub_mode status.vendor_specific_status_code \
software_version.major software_version.minor software_version.optional_field_flags software_version.vcs_commit \
software_version.image_crc hardware_version.major hardware_version.minor hardware_version.unique_id hardware_version.certificate_of_authenticity name";

fn put_software(
    console: &mut Console,
    s: NodeStatus,
    w: SoftwareVersion,
    out: &mut [u8],
    at: usize,
) -> usize {
    let v = [
        s.uptime_sec,
        s.health,
        s.mode,
        s.sub_mode,
        s.vendor_specific_status_code,
        w.major,
        w.minor,
        w.optional_field_flags,
        w.vcs_commit,
    ];
    let a = answer::numbers(console, out, at, &NAMES, &v);
    answer::unsigned(console, out, a, names::nth(&NAMES, 9), w.image_crc)
}

fn put_hardware(console: &mut Console, h: HardwareVersion, out: &mut [u8], at: usize) -> usize {
    let a = answer::number(console, out, at, names::nth(&NAMES, 10), h.major);
    answer::number(console, out, a, names::nth(&NAMES, 11), h.minor)
}

fn put_lists(console: &mut Console, payload: &[u8], out: &mut [u8], at: usize) -> usize {
    let unique_id = get_node_info_response::unique_id(payload);
    let certificate = get_node_info_response::certificate_of_authenticity(payload);
    let a = answer::list(console, out, at, names::nth(&NAMES, 12), unique_id);
    let b = answer::list(console, out, a, names::nth(&NAMES, 13), certificate);
    answer::list(
        console,
        out,
        b,
        names::nth(&NAMES, 14),
        get_node_info_response::name(payload),
    )
}

pub fn decode(console: &mut Console, payload: &[u8], out: &mut [u8], at: usize) -> usize {
    match get_node_info_response::decode(payload) {
        Err(r) => answer::refused(console, out, at, r.number()),
        Ok(x) => {
            let s = x.status;
            let w = x.software_version;
            let h = x.hardware_version;
            let a = put_software(console, s, w, out, at);
            let b = put_hardware(console, h, out, a);
            put_lists(console, payload, out, b)
        }
    }
}

fn numbers(v: [i64; 12], image_crc: u64) -> Numbers {
    Numbers {
        status: NodeStatus {
            uptime_sec: v[0],
            health: v[1],
            mode: v[2],
            sub_mode: v[3],
            vendor_specific_status_code: v[4],
        },
        software_version: SoftwareVersion {
            major: v[5],
            minor: v[6],
            optional_field_flags: v[7],
            vcs_commit: v[8],
            image_crc,
        },
        hardware_version_major: v[10],
        hardware_version_minor: v[11],
    }
}

// The call on fields that were read.
fn written(words: &[u8], v: [i64; 12], bytes: &[u8], out: &mut [u8]) -> Result<usize, Refusal> {
    let image_crc = fields::unsigned(words, names::nth(&NAMES, 9));
    let unique_id = fields::list(words, names::nth(&NAMES, 12), bytes);
    let certificate = fields::list(words, names::nth(&NAMES, 13), bytes);
    let name = fields::list(words, names::nth(&NAMES, 14), bytes);
    get_node_info_response::encode(numbers(v, image_crc), unique_id, certificate, name, out)
}

// Internal.
pub fn encode(words: &[u8], bytes: &mut [u8], out: &mut [u8]) -> Encoded
    requires { length words.now ≤ length bytes.old }
{
    let mut v = [0i64; 12];
    fields::read(&NAMES, words, &mut v, bytes)?;
    Some(written(words, v, bytes, out))
}
