// The transport in one place: the public calls of its crates, and their types. It decides nothing and adds nothing.
#![tactic(auto)]

pub use answers::{Answer, Dispatch, SendError, SetupError, Transfer};
pub use batch::{BatchError, receive_many};
pub use id_map::{setup as map_setup, size as map_size};
pub use patch::{PatchError, patch};
pub use receiver::receive;
pub use sender::{Outgoing, send};
pub use setup::setup;
