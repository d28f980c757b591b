// RULES 15.3: the allocator's three answers in the log, through the sender on a map that was set up.
ghost use Rattle.std.specs.Prelude.{◌≤◌};

use sender::Outgoing;
use std::io;

// The record from `at` on: ID, data length and the eight data bytes, unused ones too.
fn show(rt: &impl Print, out: &[u8; 39], at: usize) -> io::Result<()>
    requires { at ≤ 26 }
{
    let id = bits::le::get_at(out, at, 4);
    print!(rt; "{id:08x}")?;
    for x in &out[at + 4..at + 13] {
        print!(rt; " {x:02x}")?;
    }
    println!(rt)
}

fn answer(rt: &impl Print, map: &mut [u8; 416], time: u64, payload: &[u8]) -> io::Result<()> {
    let mut out = [0u8; 39];
    let c = Outgoing {
        own: 1,
        transfer_type: 0,
        type_id: 1,
        destination: 0,
        priority: 30,
        signature: types::signature(0, 1),
        time,
        transfer_id: 0,
        discriminator: 0,
    };
    let Ok(d) = sender::send(map, c, payload, &mut out) else {
        return Ok(());
    };
    let n = d.frames;
    if 0 < n {
        show(rt, &out, 0)?;
    }
    if 1 < n {
        show(rt, &out, 13)?;
    }
    if 2 < n {
        show(rt, &out, 26)?;
    }
    Ok(())
}

pub fn run(rt: &impl Print) -> io::Result<()> {
    let mut map = [0u8; 416];
    id_map::setup(&mut map).unwrap();
    println!(rt; "003 allocator's answers")?;
    answer(rt, &mut map, 1_117_000, b"\x00\x44\xC0\x8B\x63\x5E\x05")?;
    answer(
        rt,
        &mut map,
        1_406_000,
        b"\x00\x44\xC0\x8B\x63\x5E\x05\xF4\xBC\x10\x96\xDF\x11",
    )?;
    answer(
        rt,
        &mut map,
        1_485_000,
        b"\xFA\x44\xC0\x8B\x63\x5E\x05\xF4\xBC\x10\x96\xDF\x11\xA8\xBA\x54\x47",
    )
}
