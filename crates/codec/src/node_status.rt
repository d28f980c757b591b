// NodeStatus by hand.
use super::numbers::Numbers;
use protocol::node_status;
use protocol::node_status::NodeStatus;
use shape::answer::Refusal;

impl Numbers<5> for NodeStatus {
    const NAMES: &'static [u8] = b"uptime_sec health mode sub_mode vendor_specific_status_code";

    fn read(payload: &[u8]) -> Result<NodeStatus, Refusal> {
        node_status::decode(payload)
    }

    fn numbers(self) -> [i64; 5] {
        [
            self.uptime_sec,
            self.health,
            self.mode,
            self.sub_mode,
            self.vendor_specific_status_code,
        ]
    }

    fn of_numbers(v: [i64; 5]) -> NodeStatus {
        NodeStatus {
            uptime_sec: v[0],
            health: v[1],
            mode: v[2],
            sub_mode: v[3],
            vendor_specific_status_code: v[4],
        }
    }

    fn write(self, out: &mut [u8]) -> Result<usize, Refusal> {
        node_status::encode(self, out)
    }
}
