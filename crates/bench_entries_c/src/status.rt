// NodeStatus under C names.

// Of a refusal, its number from the top.
#[unsafe(no_mangle)]
pub extern "C" fn bench_status_decode(payload: &[u8]) -> u64 {
    bench_entries::status::bench_status_decode(payload)
}

// The number of bytes written. Of a refusal, its number from the top.
#[unsafe(no_mangle)]
pub extern "C" fn bench_status_encode(v: &[i64; 5], out: &mut [u8]) -> u64 {
    bench_entries::status::bench_status_encode(v, out)
}
