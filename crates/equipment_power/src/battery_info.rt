// BatteryInfo (message 1092; RULES 10.9). Its floats are binary16 in the payload. `decode` and `encode` have them as f32; `decode_raw` and
// `encode_raw` leave them as they are, for callers that want every bit, or a NaN's (`binary16::pattern::widen`).
ghost use Rattle.std.specs.Prelude.{◌≡◌, ◌+◌, ◌*◌, ◌≤◌, ◌<◌, ◌^◌, length, drop};
ghost use Rattle.bits.specs.Order.{unpack, to_bits, from_bits, store};
ghost use Rattle.shape.specs.Answer as answer;
ghost use Rattle.shape.specs.Answer.{numbered, answer_of};
ghost use Rattle.shape.specs.Shape as shape;
ghost use Rattle.shape.specs.Shape.{end, written};
ghost use Rattle.equipment_power.specs.BatteryInfo.{floats_then, others_then, name_only, battery_info, model_name_in, float_values, other_values, raw_values, raw_in, widened_info, narrowed_info, info_in, raw_at};

use binary16::float;
use bits::field;
use shape::answer::{Place, Refusal};
use shape::{number, part};

#[derive(Drop)]
pub struct BatteryInfo {
    pub temperature: f32,
    pub voltage: f32,
    pub current: f32,
    pub average_power_10sec: f32,
    pub remaining_capacity_wh: f32,
    pub full_charge_capacity_wh: f32,
    pub hours_to_full_charge: f32,
    pub status_flags: i64,
    pub state_of_health_pct: i64,
    pub state_of_charge_pct: i64,
    pub state_of_charge_pct_stdev: i64,
    pub battery_id: i64,
    pub model_instance_id: i64,
}

// The same, each float as the 16 bits of its binary16.
#[derive(Clone, Copy)]
pub struct Raw {
    pub temperature: u16,
    pub voltage: u16,
    pub current: u16,
    pub average_power_10sec: u16,
    pub remaining_capacity_wh: u16,
    pub full_charge_capacity_wh: u16,
    pub hours_to_full_charge: u16,
    pub status_flags: i64,
    pub state_of_health_pct: i64,
    pub state_of_charge_pct: i64,
    pub state_of_charge_pct_stdev: i64,
    pub battery_id: i64,
    pub model_instance_id: i64,
}

// The model name, as a part of the payload: all after the first 23 bytes.
pub fn model_name(payload: &[u8]) -> &[u8]
    ensures { result.now ≡ model_name_in payload.now }
{
    part::behind(payload, 23)
}

// The 16 bits from bit `at` on.
fn half(s: &[u8], at: usize) -> u16
    requires { (at < 2 ^ 63) × (at + 16 ≤ length s.now * 8) }
    ensures { result ≡ from_bits 16 (drop at (unpack s.now)) }
{
    field::read(s, at, 16) as u16
}

// The numbers in the first 23 bytes.
fn read_numbers(s: &[u8]) -> Raw
    requires { 23 ≤ length s.now }
    ensures { result ≡ raw_at (unpack s.now) }
{
    Raw {
        temperature: half(s, 0),
        voltage: half(s, 16),
        current: half(s, 32),
        average_power_10sec: half(s, 48),
        remaining_capacity_wh: half(s, 64),
        full_charge_capacity_wh: half(s, 80),
        hours_to_full_charge: half(s, 96),
        status_flags: number::read(s, 112, 11),
        state_of_health_pct: number::read(s, 123, 7),
        state_of_charge_pct: number::read(s, 130, 7),
        state_of_charge_pct_stdev: number::read(s, 137, 7),
        battery_id: number::read(s, 144, 8),
        model_instance_id: number::read(s, 152, 32),
    }
}

// Reads a pack's state, and the place of its model name: 15 for a payload that ends too early, 16 for one that is too long.
pub fn decode_raw(payload: &[u8]) -> Result<(Raw, Place), Refusal>
    ensures { answer_of result ≡ numbered (raw_in payload.now) }
{
    if payload.len() < 23 {
        return Err(Refusal::TooShort);
    }
    let len = model_name(payload).len();
    if 31 < len {
        return Err(Refusal::TooLong);
    }
    Ok((read_numbers(payload), Place { at: 23, len }))
}

// Each binary16 as an f32 (RULES 9.12). No From: a NaN's bits are lost.
fn widened(m: Raw) -> BatteryInfo
    ensures { result ≡ widened_info m }
{
    BatteryInfo {
        temperature: float::to_f32(m.temperature),
        voltage: float::to_f32(m.voltage),
        current: float::to_f32(m.current),
        average_power_10sec: float::to_f32(m.average_power_10sec),
        remaining_capacity_wh: float::to_f32(m.remaining_capacity_wh),
        full_charge_capacity_wh: float::to_f32(m.full_charge_capacity_wh),
        hours_to_full_charge: float::to_f32(m.hours_to_full_charge),
        status_flags: m.status_flags,
        state_of_health_pct: m.state_of_health_pct,
        state_of_charge_pct: m.state_of_charge_pct,
        state_of_charge_pct_stdev: m.state_of_charge_pct_stdev,
        battery_id: m.battery_id,
        model_instance_id: m.model_instance_id,
    }
}

// The same as f32.
pub fn decode(payload: &[u8]) -> Result<(BatteryInfo, Place), Refusal>
    ensures { answer_of result ≡ numbered (info_in payload.now) }
{
    let (m, place) = decode_raw(payload)?;
    Ok((widened(m), place))
}

// 16 bits from bit `at` on.
fn write_half(out: &mut [u8], at: usize, h: u16)
    requires { (at < 2 ^ 63) × (at + 16 ≤ length out.old * 8) }
    ensures { out.new ≡ store out.old at (to_bits 16 h) }
{
    field::write(out, at, 16, h as u64);
}

// The 112 bits of the floats, from the front.
fn write_floats(out: &mut [u8], m: Raw)
    requires { 14 ≤ length out.old }
    ensures { out.new ≡ store out.old 0 (shape.encode (floats_then end) (float_values m end tt)) }
{
    write_half(out, 0, m.temperature);
    write_half(out, 16, m.voltage);
    write_half(out, 32, m.current);
    write_half(out, 48, m.average_power_10sec);
    write_half(out, 64, m.remaining_capacity_wh);
    write_half(out, 80, m.full_charge_capacity_wh);
    write_half(out, 96, m.hours_to_full_charge);
}

// The 72 bits of the other numbers, after the floats.
fn write_others(out: &mut [u8], m: Raw)
    requires { 23 ≤ length out.old }
    ensures { out.new ≡ store out.old 112 (shape.encode (others_then end) (other_values m end tt)) }
{
    number::write(out, 112, 11, m.status_flags);
    number::write(out, 123, 7, m.state_of_health_pct);
    number::write(out, 130, 7, m.state_of_charge_pct);
    number::write(out, 137, 7, m.state_of_charge_pct_stdev);
    number::write(out, 144, 8, m.battery_id);
    number::write(out, 152, 32, m.model_instance_id);
}

// Writes a pack's state to the front of `out`, numbers saturated: 17 for a model name that is too long, then 8 for too little room.
pub fn encode_raw(m: Raw, model_name: &[u8], out: &mut [u8]) -> Result<usize, Refusal>
    ensures { (answer.answer_of result, out.new) ≡ written battery_info (raw_values m name_only model_name.now) out.old }
{
    if 31 < model_name.len() {
        return Err(Refusal::NotAllowed);
    }
    let n = 23 + model_name.len();
    if out.len() < n {
        return Err(Refusal::NoRoom);
    }
    write_floats(out, m);
    write_others(out, m);
    field::write_bytes(out, 23, model_name);
    Ok(n)
}

// Each f32 as its nearest binary16 (RULES 9.12). No From: it rounds.
fn narrowed(x: BatteryInfo) -> Raw
    ensures { result ≡ narrowed_info x }
{
    Raw {
        temperature: float::from_f32(x.temperature),
        voltage: float::from_f32(x.voltage),
        current: float::from_f32(x.current),
        average_power_10sec: float::from_f32(x.average_power_10sec),
        remaining_capacity_wh: float::from_f32(x.remaining_capacity_wh),
        full_charge_capacity_wh: float::from_f32(x.full_charge_capacity_wh),
        hours_to_full_charge: float::from_f32(x.hours_to_full_charge),
        status_flags: x.status_flags,
        state_of_health_pct: x.state_of_health_pct,
        state_of_charge_pct: x.state_of_charge_pct,
        state_of_charge_pct_stdev: x.state_of_charge_pct_stdev,
        battery_id: x.battery_id,
        model_instance_id: x.model_instance_id,
    }
}

// The same from f32.
pub fn encode(x: BatteryInfo, model_name: &[u8], out: &mut [u8]) -> Result<usize, Refusal>
    ensures { (answer.answer_of result, out.new) ≡ written battery_info (raw_values (narrowed_info x) name_only model_name.now) out.old }
{
    encode_raw(narrowed(x), model_name, out)
}
