// BatteryInfo as a row of 15 (RULES 10.9), each float as the 32 bits of a binary32 (RULES 9.12).
ghost use Rattle.std.specs.Prelude.{◌≡◌, true, ◌^◌, ◌≤◌, ◌<◌, length, take, get_or};
ghost use Rattle.binary16.specs.Convert.{widened, narrowed};
ghost use Rattle.shape.specs.Shape.{all_below};
ghost use Rattle.equipment_power.specs.BatteryInfo.{raw_in};
ghost use Rattle.row.specs.Row as form;
ghost use Rattle.message_fields.specs.BatteryInfo.{info_words, info_in, info_from, info_made};

use super::as_row::{self, AsRow};
use binary16::pattern;
use equipment_power::battery_info;
use equipment_power::battery_info::Raw;
use shape::answer::{Place, Refusal};

fn wide(h: u16) -> u64
    ensures { result ≡ widened h }
{
    pattern::widen(h) as u64
}

impl AsRow<15> for (Raw, Place) {
    ghost read = { raw_in };

    ghost words = { info_words };

    fn read(payload: &[u8]) -> Result<(Raw, Place), Refusal> {
        battery_info::decode_raw(payload)
    }

    fn words(self) -> [u64; 15] {
        let (x, name) = self;
        [
            wide(x.temperature),
            wide(x.voltage),
            wide(x.current),
            wide(x.average_power_10sec),
            wide(x.remaining_capacity_wh),
            wide(x.full_charge_capacity_wh),
            wide(x.hours_to_full_charge),
            row::word(x.status_flags),
            row::word(x.state_of_health_pct),
            row::word(x.state_of_charge_pct),
            row::word(x.state_of_charge_pct_stdev),
            row::word(x.battery_id),
            row::word(x.model_instance_id),
            name.at as u64,
            name.len as u64,
        ]
    }
}

// Reads a pack's state into a row: 15 and 16, then 8 for too few places.
pub fn decode(payload: &[u8], fields: &mut [u64]) -> u32
    ensures { (result, fields.new) ≡ form.row (info_in payload.now) fields.old }
{
    as_row::decode::<15, (Raw, Place)>(payload, fields)
}

// The first seven words are floats.
fn are_floats(fields: &[u64]) -> bool
    requires { 15 ≤ length fields.now }
    ensures { result ≡ all_below (2 ^ 32) (take 7 fields.now) }
{
    for i in 0..7 {
        if 0xFFFFFFFF < fields[i] {
            return false;
        }
    }
    true
}

// A float of the row as its nearest binary16.
fn half(fields: &[u64], i: usize) -> u16
    requires { (i < 7) × ((15 ≤ length fields.now) × (all_below (2 ^ 32) (take 7 fields.now) ≡ true)) }
    ensures { result ≡ narrowed (get_or fields.now i 0) }
{
    pattern::narrow(fields[i] as u32)
}

fn from(fields: &[u64]) -> Raw
    requires { (15 ≤ length fields.now) × (all_below (2 ^ 32) (take 7 fields.now) ≡ true) }
    ensures { result ≡ info_from fields.now }
{
    Raw {
        temperature: half(fields, 0),
        voltage: half(fields, 1),
        current: half(fields, 2),
        average_power_10sec: half(fields, 3),
        remaining_capacity_wh: half(fields, 4),
        full_charge_capacity_wh: half(fields, 5),
        hours_to_full_charge: half(fields, 6),
        status_flags: row::count(fields, 7),
        state_of_health_pct: row::count(fields, 8),
        state_of_charge_pct: row::count(fields, 9),
        state_of_charge_pct_stdev: row::count(fields, 10),
        battery_id: row::count(fields, 11),
        model_instance_id: row::count(fields, 12),
    }
}

// Writes the state of a row and a name: 15 for a row that is too short, then 17, also for what is no float, and 8.
pub fn encode(fields: &[u64], model_name: &[u8], out: &mut [u8]) -> u64
    ensures { (result, out.new) ≡ form.message (info_made fields.now model_name.now (length out.old)) out.old }
{
    if fields.len() < 15 {
        return 15;
    }
    if !are_floats(fields) {
        return 17;
    }
    row::of_written(battery_info::encode_raw(from(fields), model_name, out))
}
