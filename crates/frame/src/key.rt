// A stream in one number.
ghost use Rattle.std.specs.Prelude.{◌≡◌, ◌<◌};
ghost use Rattle.frame.specs.Key.{key_of};
ghost use Rattle.frame.specs.inside.Head.{stream_of};

use super::head::Head;

// Internal. The key of a head's stream.
pub fn key(h: Head) -> u32
    requires { (h.transfer_type < 3) × ((h.source < 128) × (h.destination < 128)) }
    ensures { result ≡ key_of (stream_of h) }
{
    ((h.transfer_type as u32 * 65536 + h.type_id as u32) * 128 + h.source as u32) * 128
        + h.destination as u32
}
