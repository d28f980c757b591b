// The response of GetNodeInfo under C names.

#[unsafe(no_mangle)]
pub extern "C" fn bench_info_decode(payload: &[u8]) -> u64 {
    bench_entries::info::bench_info_decode(payload)
}

#[unsafe(no_mangle)]
pub extern "C" fn bench_info_encode(
    v: &[i64; 11],
    image_crc: u64,
    unique_id: &[u8],
    certificate: &[u8],
    name: &[u8],
    out: &mut [u8],
) -> u64 {
    bench_entries::info::bench_info_encode(v, image_crc, unique_id, certificate, name, out)
}
