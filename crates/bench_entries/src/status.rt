// NodeStatus.
use protocol::node_status;
use protocol::node_status::NodeStatus;
use shape::signed::size;

// Internal. One number made of the fields, so that none can be left unread.
pub fn of_status(x: NodeStatus) -> u64 {
    size(x.uptime_sec)
        ^ (size(x.health) << 32)
        ^ (size(x.mode) << 34)
        ^ (size(x.sub_mode) << 37)
        ^ (size(x.vendor_specific_status_code) << 40)
}

// Of a refusal, its number from the top.
pub fn bench_status_decode(payload: &[u8]) -> u64 {
    match node_status::decode(payload) {
        Err(r) => u64::MAX - r.number() as u64,
        Ok(x) => of_status(x),
    }
}

// The number of bytes written. Of a refusal, its number from the top.
pub fn bench_status_encode(v: &[i64; 5], out: &mut [u8]) -> u64 {
    let x = NodeStatus {
        uptime_sec: v[0],
        health: v[1],
        mode: v[2],
        sub_mode: v[3],
        vendor_specific_status_code: v[4],
    };
    match node_status::encode(x, out) {
        Err(r) => u64::MAX - r.number() as u64,
        Ok(n) => n as u64,
    }
}
