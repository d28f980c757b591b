// The response of GetNodeInfo, with the same results as those of NodeStatus.
use super::status::of_status;
use protocol::get_node_info_response;
use protocol::get_node_info_response::{Numbers, SoftwareVersion};
use protocol::node_status::NodeStatus;
use shape::signed::size;

fn of_software(v: SoftwareVersion) -> u64 {
    let version = (size(v.major) << 8)
        ^ (size(v.minor) << 16)
        ^ (size(v.optional_field_flags) << 24);
    version ^ (size(v.vcs_commit) << 32) ^ v.image_crc
}

pub fn bench_info_decode(payload: &[u8]) -> u64 {
    match get_node_info_response::decode(payload) {
        Err(r) => u64::MAX - r.number() as u64,
        Ok(x) => {
            let s = x.status;
            let v = x.software_version;
            let h = x.hardware_version;
            let u = h.unique_id;
            let c = h.certificate_of_authenticity;
            let n = x.name;
            let places = (u.at ^ (u.len << 9))
                ^ ((c.at << 18) ^ (c.len << 27))
                ^ ((n.at << 36) ^ (n.len << 45));
            of_status(s)
                ^ of_software(v)
                ^ (size(h.major) << 48)
                ^ (size(h.minor) << 56)
                ^ places as u64
        }
    }
}

pub fn bench_info_encode(
    v: &[i64; 11],
    image_crc: u64,
    unique_id: &[u8],
    certificate: &[u8],
    name: &[u8],
    out: &mut [u8],
) -> u64 {
    let m = Numbers {
        status: NodeStatus {
            uptime_sec: v[0],
            health: v[1],
            mode: v[2],
            sub_mode: v[3],
            vendor_specific_status_code: v[4],
        },
        software_version: SoftwareVersion {
            major: v[5],
            minor: v[6],
            optional_field_flags: v[7],
            vcs_commit: v[8],
            image_crc,
        },
        hardware_version_major: v[9],
        hardware_version_minor: v[10],
    };
    match get_node_info_response::encode(m, unique_id, certificate, name, out) {
        Err(r) => u64::MAX - r.number() as u64,
        Ok(n) => n as u64,
    }
}
