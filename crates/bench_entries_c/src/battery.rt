// BatteryInfo under C names.

#[unsafe(no_mangle)]
pub extern "C" fn bench_battery_decode(payload: &[u8], floats: &mut [f32; 7]) -> u64 {
    bench_entries::battery::bench_battery_decode(payload, floats)
}

#[unsafe(no_mangle)]
pub extern "C" fn bench_battery_encode(
    floats: &[f32; 7],
    v: &[i64; 6],
    model_name: &[u8],
    out: &mut [u8],
) -> u64 {
    bench_entries::battery::bench_battery_encode(floats, v, model_name, out)
}
