// What the programs write to standard output.
use crate::checksums;

// Standard output by its number.
const STDOUT_FILENO: i32 = 1;

pub fn text(s: &[u8]) {
    io::write_all(STDOUT_FILENO, s);
}

pub fn decimal(n: u64) {
    io::print_decimal(STDOUT_FILENO, n);
}

// In at least so many hexadecimal digits.
pub fn hexadecimal(n: u64, width: usize) {
    io::print_hex(STDOUT_FILENO, n, width);
}

// A number, a space in front.
pub fn number(n: u64) {
    text(b" ");
    decimal(n);
}

// A flag as 1 or 0.
pub fn flag(b: bool) {
    number(u64::from(b));
}

pub fn line_end() {
    text(b"\n");
}

// The name of a call, its reply, and the next place.
pub fn answer(name: &[u8], reply: u8, next: usize) {
    text(name);
    number(u64::from(reply));
    number(next as u64);
}

// Each byte as a number.
pub fn numbers(xs: &[u8]) {
    for x in xs {
        number(u64::from(*x));
    }
}

// The bytes in hexadecimal digits, a space in front of the first.
pub fn bytes(xs: &[u8]) {
    text(b" ");
    for x in xs {
        hexadecimal(u64::from(*x), 2);
    }
}

// What stands in an output: its checksum, its first sixteen bytes and its last four, as far as there are.
pub fn output(out: &[u8]) {
    number(checksums::of_bytes(out));
    bytes(&out[..out.len().min(16)]);
    bytes(&out[out.len().saturating_sub(4)..]);
}
