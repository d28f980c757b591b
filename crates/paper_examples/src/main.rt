// Runs the worked examples of RULES 15 through the proved functions; the stored output is the comparison.
#![tactic(auto)]

mod allocation;

use bits::field;
use checksum::crc16;
use std::io;

fn show(rt: &impl Print, name: &str, s: &[u8; 4]) -> io::Result<()> {
    println!(rt;
        "{name} {:02x} {:02x} {:02x} {:02x}",
        s[0], s[1], s[2], s[3]
    )
}

// RULES 15.1, 9.2: the 12-bit 0xEDA and then the 4-bit 5.
fn two_fields(rt: &impl Print) -> io::Result<()> {
    let mut s = [0u8; 4];
    field::write(&mut s, 0, 12, 0xEDA);
    field::write(&mut s, 12, 4, 5);
    show(rt, "01 two fields", &s)
}

// RULES 15.2: 0xBEDA in 12 bits, -1 in 3, -5 in 4, -1 in 2 and 0x88 in 4, of each the low bits.
fn five_fields(rt: &impl Print) -> io::Result<()> {
    let mut s = [0u8; 4];
    field::write(&mut s, 0, 12, 0xBEDA);
    field::write(&mut s, 12, 3, 0xFFFFFFFFFFFFFFFF);
    field::write(&mut s, 15, 4, 0xFFFFFFFFFFFFFFFB);
    field::write(&mut s, 19, 2, 0xFFFFFFFFFFFFFFFF);
    field::write(&mut s, 21, 4, 0x88);
    show(rt, "004 five fields", &s)
}

// RULES 15.1: the check value of CRC-16-CCITT-FALSE.
fn check_value(rt: &impl Print) -> io::Result<()> {
    let sum = crc16::over(0xFFFF, b"123456789");
    println!(rt; "002 checksum of 123456789 {sum:04x}")
}

// RULES 9.3: the width of the length field of lists of at most 251 items and of one.
fn widths(rt: &impl Print) -> io::Result<()> {
    let long = bits::width::width(251);
    let short = bits::width::width(1);
    println!(rt; "004 length fields of 251 and 1: {long} {short}")
}

fn main(rt: HostRuntime) -> io::Result<()> {
    two_fields(&rt)?;
    five_fields(&rt)?;
    check_value(&rt)?;
    widths(&rt)?;
    allocation::run(&rt)
}
