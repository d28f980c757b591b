// BatteryInfo by hand. A float is the number that its 32 bits make as an f32, as KeyValue's value is.
ghost use Rattle.std.specs.Prelude.{◌≤◌, length};

use binary16::pattern;
use codec_text::answer::Encoded;
use codec_text::{answer, fields, float, names};
use console::Console;
use equipment_power::battery_info;
use equipment_power::battery_info::Raw;
use shape::answer::Refusal;

const NAMES: [u8; 233] =
    *b"temperature voltage current average_power_10sec remaining_capacity_wh full_charge_capacity_wh hours_to_full_charge \
status_flags state_of_health_pct state_of_charge_pct state_of_charge_pct_stdev battery_id model_instance_id model_name";

// The numbers, in the order of the names.
fn values(m: Raw) -> [i64; 13] {
    [
        pattern::widen(m.temperature) as i64,
        pattern::widen(m.voltage) as i64,
        pattern::widen(m.current) as i64,
        pattern::widen(m.average_power_10sec) as i64,
        pattern::widen(m.remaining_capacity_wh) as i64,
        pattern::widen(m.full_charge_capacity_wh) as i64,
        pattern::widen(m.hours_to_full_charge) as i64,
        m.status_flags,
        m.state_of_health_pct,
        m.state_of_charge_pct,
        m.state_of_charge_pct_stdev,
        m.battery_id,
        m.model_instance_id,
    ]
}

pub fn decode(console: &mut Console, payload: &[u8], out: &mut [u8], at: usize) -> usize {
    match battery_info::decode_raw(payload) {
        Err(r) => answer::refused(console, out, at, r.number()),
        Ok((m, _)) => {
            let v = values(m);
            let a = answer::numbers(console, out, at, &NAMES, &v);
            answer::list(
                console,
                out,
                a,
                names::nth(&NAMES, 13),
                battery_info::model_name(payload),
            )
        }
    }
}

// Whether each of the floats is of 32 bits.
fn are_floats(v: [i64; 13]) -> bool {
    v[..7].iter().all(|x| float::is_pattern(*x))
}

fn half(v: i64) -> u16 {
    pattern::narrow(float::bits(v))
}

fn raw_of(v: [i64; 13]) -> Raw {
    Raw {
        temperature: half(v[0]),
        voltage: half(v[1]),
        current: half(v[2]),
        average_power_10sec: half(v[3]),
        remaining_capacity_wh: half(v[4]),
        full_charge_capacity_wh: half(v[5]),
        hours_to_full_charge: half(v[6]),
        status_flags: v[7],
        state_of_health_pct: v[8],
        state_of_charge_pct: v[9],
        state_of_charge_pct_stdev: v[10],
        battery_id: v[11],
        model_instance_id: v[12],
    }
}

// The call on fields that were read.
fn written(v: [i64; 13], model_name: &[u8], out: &mut [u8]) -> Result<usize, Refusal> {
    if !are_floats(v) {
        return Err(Refusal::NotAllowed);
    }
    battery_info::encode_raw(raw_of(v), model_name, out)
}

// Internal.
pub fn encode(words: &[u8], bytes: &mut [u8], out: &mut [u8]) -> Encoded
    requires { length words.now ≤ length bytes.old }
{
    let mut v = [0i64; 13];
    fields::read(&NAMES, words, &mut v, bytes)?;
    let model_name = fields::list(words, names::nth(&NAMES, 13), bytes);
    Some(written(v, model_name, out))
}
