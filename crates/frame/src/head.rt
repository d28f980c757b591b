// What an ID and a tail byte say (RULES 2.2 to 2.4).
ghost use Rattle.std.specs.Prelude.{◌≡◌, ◌^◌, ◌<◌};
ghost use Rattle.frame.specs.inside.Head.{head_of};
ghost use Rattle.rules.specs.Frame as rules;

#[derive(Clone, Copy)]
pub struct Head {
    pub transfer_type: u8,
    pub type_id: u16,
    pub source: u8,
    pub destination: u8,
    pub priority: u8,
    pub start: bool,
    pub end: bool,
    pub toggle: bool,
    pub transfer: u8,
}

fn is_service(id: u32) -> bool
    ensures { result ≡ rules.is_service id }
{
    id / 128 % 2 == 1
}

fn transfer_type(id: u32) -> u8
    ensures { result ≡ (rules.stream_of id).transfer_type }
{
    if is_service(id) {
        if id / 32768 % 2 == 1 {
            return 1;
        }
        return 2;
    }
    0
}

fn type_id(id: u32) -> u32
    ensures { result ≡ (rules.stream_of id).type }
{
    if is_service(id) {
        return id / 65536 % 256;
    }
    if id % 128 == 0 {
        return id / 256 % 4;
    }
    id / 256 % 65536
}

fn destination(id: u32) -> u8
    ensures { result ≡ (rules.stream_of id).destination }
{
    if is_service(id) {
        return (id / 256 % 128) as u8;
    }
    0
}

// Internal. The head of a frame with this ID and tail byte.
pub fn read(id: u32, tail: u8) -> Head
    requires { id < 2 ^ 29 }
    ensures { result ≡ head_of id tail }
{
    Head {
        transfer_type: transfer_type(id),
        type_id: (type_id(id) % 65536) as u16,
        source: (id % 128) as u8,
        destination: destination(id),
        priority: (id / 16777216 % 256) as u8,
        start: tail / 128 % 2 == 1,
        end: tail / 64 % 2 == 1,
        toggle: tail / 32 % 2 == 1,
        transfer: tail % 32,
    }
}
