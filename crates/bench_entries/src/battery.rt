// BatteryInfo: its floats by an array, its other numbers as those of NodeStatus.
use equipment_power::battery_info;
use equipment_power::battery_info::BatteryInfo;
use shape::answer::Place;
use shape::signed::size;

fn number(x: BatteryInfo, name: Place) -> u64 {
    let state = size(x.status_flags)
        ^ (size(x.state_of_health_pct) << 11)
        ^ (size(x.state_of_charge_pct) << 18)
        ^ (size(x.state_of_charge_pct_stdev) << 25)
        ^ (size(x.battery_id) << 32);
    state ^ (size(x.model_instance_id) << 28) ^ (name.at ^ (name.len << 5)) as u64
}

pub fn bench_battery_decode(payload: &[u8], floats: &mut [f32; 7]) -> u64 {
    match battery_info::decode(payload) {
        Err(r) => u64::MAX - r.number() as u64,
        Ok((x, name)) => {
            floats[0] = x.temperature;
            floats[1] = x.voltage;
            floats[2] = x.current;
            floats[3] = x.average_power_10sec;
            floats[4] = x.remaining_capacity_wh;
            floats[5] = x.full_charge_capacity_wh;
            floats[6] = x.hours_to_full_charge;
            number(x, name)
        }
    }
}

pub fn bench_battery_encode(
    floats: &[f32; 7],
    v: &[i64; 6],
    model_name: &[u8],
    out: &mut [u8],
) -> u64 {
    let x = BatteryInfo {
        temperature: floats[0],
        voltage: floats[1],
        current: floats[2],
        average_power_10sec: floats[3],
        remaining_capacity_wh: floats[4],
        full_charge_capacity_wh: floats[5],
        hours_to_full_charge: floats[6],
        status_flags: v[0],
        state_of_health_pct: v[1],
        state_of_charge_pct: v[2],
        state_of_charge_pct_stdev: v[3],
        battery_id: v[4],
        model_instance_id: v[5],
    };
    match battery_info::encode(x, model_name, out) {
        Err(r) => u64::MAX - r.number() as u64,
        Ok(n) => n as u64,
    }
}
