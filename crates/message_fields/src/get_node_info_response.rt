// GetNodeInfo's response as a row of 18 (RULES 10.7).
ghost use Rattle.std.specs.Prelude.{◌≡◌, ◌≤◌, length};
ghost use Rattle.shape.specs.Answer.{map_answer};
ghost use Rattle.shape.specs.Shape.{decoded};
ghost use Rattle.protocol.specs.GetNodeInfoResponse.{response, response_of};
ghost use Rattle.row.specs.Row as form;
ghost use Rattle.message_fields.specs.GetNodeInfo.{software_words, response_words, response_in, software_from, numbers_from, response_made};

use super::as_row::{self, AsRow, OfRow};
use protocol::get_node_info_response;
use protocol::get_node_info_response::{Numbers, Response, SoftwareVersion};
use protocol::node_status::NodeStatus;
use shape::answer::Refusal;

fn software_words(v: SoftwareVersion) -> [u64; 5]
    ensures { result ≡ software_words v }
{
    [
        row::word(v.major),
        row::word(v.minor),
        row::word(v.optional_field_flags),
        row::word(v.vcs_commit),
        v.image_crc,
    ]
}

impl AsRow<18> for Response {
    ghost read = { λ p. map_answer response_of (decoded response p) };

    ghost words = { response_words };

    fn read(payload: &[u8]) -> Result<Response, Refusal> {
        get_node_info_response::decode(payload)
    }

    fn words(self) -> [u64; 18] {
        let s = self.status.words();
        let v = software_words(self.software_version);
        let h = self.hardware_version;
        let u = h.unique_id;
        let c = h.certificate_of_authenticity;
        let n = self.name;
        [
            s[0],
            s[1],
            s[2],
            s[3],
            s[4],
            v[0],
            v[1],
            v[2],
            v[3],
            v[4],
            row::word(h.major),
            row::word(h.minor),
            u.at as u64,
            u.len as u64,
            c.at as u64,
            c.len as u64,
            n.at as u64,
            n.len as u64,
        ]
    }
}

// Reads a response into a row: 15, 16 and 17, then 8 for too few places.
pub fn decode(payload: &[u8], fields: &mut [u64]) -> u32
    ensures { (result, fields.new) ≡ form.row (response_in payload.now) fields.old }
{
    as_row::decode::<18, Response>(payload, fields)
}

fn software(fields: &[u64]) -> SoftwareVersion
    requires { 18 ≤ length fields.now }
    ensures { result ≡ software_from fields.now }
{
    SoftwareVersion {
        major: row::count(fields, 5),
        minor: row::count(fields, 6),
        optional_field_flags: row::count(fields, 7),
        vcs_commit: row::count(fields, 8),
        image_crc: fields[9],
    }
}

fn from(fields: &[u64]) -> Numbers
    requires { 18 ≤ length fields.now }
    ensures { result ≡ numbers_from fields.now }
{
    Numbers {
        status: NodeStatus::of_row(fields),
        software_version: software(fields),
        hardware_version_major: row::count(fields, 10),
        hardware_version_minor: row::count(fields, 11),
    }
}

// Writes the response of a row and three lists: 15 for a row that is too short, then 17 and 8.
pub fn encode(
    fields: &[u64],
    unique_id: &[u8],
    certificate_of_authenticity: &[u8],
    name: &[u8],
    out: &mut [u8],
) -> u64
    ensures { (result, out.new) ≡ form.message (response_made fields.now unique_id.now certificate_of_authenticity.now name.now (length out.old)) out.old }
{
    if fields.len() < 18 {
        return 15;
    }
    let m = from(fields);
    row::of_written(get_node_info_response::encode(
        m,
        unique_id,
        certificate_of_authenticity,
        name,
        out,
    ))
}
