// Runs the calls on norms over made norms and prints what they answer: both orders, replies, choices, legal norms, and norm parts written and
// read back. Lists of norms and of bytes are printed as a checksum.

#![tactic(auto)]

use ground::replies::{Reply, number_of};
use norms::NormPart;
use run_lines::checksums::of_bytes;
use run_lines::show;

fn title(name: &[u8], a: u64, b: u64, c: u64) {
    show::text(name);
    show::number(a);
    show::number(b);
    show::number(c);
    show::line_end();
}

fn after(x: u32) -> u32 {
    (x % 65536 * 1103 + 12345) % 65536
}

fn byte_of(x: u32) -> u8 {
    (x / 256 % 256) as u8
}

// A byte below span, or any where span is 0.
fn below(span: u8, x: u8) -> u8 {
    if span == 0 { x } else { x % span }
}

// From least on, below least + span.
fn drawn_byte(x: u32, least: u8, span: u8) -> u8 {
    ((u32::from(least) + u32::from(below(span, byte_of(x)))) % 256) as u8
}

fn draw(out: &mut [u8], seed: u32, least: u8, span: u8) {
    let mut x = seed;
    for byte in out.iter_mut() {
        x = after(x);
        *byte = drawn_byte(x, least, span);
    }
}

fn rising() -> [u8; 44] {
    std::array::from_fn(|band| band as u8)
}

fn order_row(bands: [u8; 44]) {
    show::text(b"order");
    show::numbers(&bands);
    show::line_end();
}

fn read_row(read: Result<NormPart, Reply>) {
    match read {
        Ok(part) => title(b"read", 0, part.next as u64, of_bytes(&part.norms)),
        Err(reply) => title(b"read", u64::from(u8::from(reply)), 0, 0),
    }
}

// The norm part written at bit 13: its bits as counted and as written, the bytes, and what is read back with as many bits before the end as
// it has, and with one bit fewer.
fn part_rows(transient: bool, flag_n: bool, norms: [u8; 44]) {
    let mut s = [170u8; 40];
    let n = norms::write_norms(&mut s, 13, transient, flag_n, norms);
    title(
        b"part",
        norms::norm_bits(transient, flag_n, norms) as u64,
        n as u64,
        of_bytes(&s),
    );
    if 306 < n {
        return;
    }
    read_row(norms::read_norms(&s, 13, 13 + n, transient, flag_n));
    read_row(norms::read_norms(&s, 13, 12 + n, transient, flag_n));
}

// Norms in one kind of frame: the reply before writing, the FlagN choice, the legal norms, the norms in sent order, and the legal ones written
// and read back.
fn norm_rows(transient: bool, norms: [u8; 44]) {
    let choice = norms::choose_flag_n(transient, norms);
    let legal = legal::legalise(transient, norms);
    title(
        b"norms",
        u64::from(number_of(norms::norm_reply(transient, norms))),
        u64::from(number_of(choice.map(|_| ()))),
        u64::from(choice.unwrap_or(false)),
    );
    title(
        b"legal",
        u64::from(legal.reply),
        of_bytes(&legal.norms),
        of_bytes(&order::sent_order(transient, norms)),
    );
    part_rows(transient, false, legal.norms);
    part_rows(transient, true, legal.norms);
}

fn drawn_rows(seed: u32, least: u8, span: u8) {
    title(b"drawn", u64::from(seed), u64::from(least), u64::from(span));
    let mut norms = [0u8; 44];
    draw(&mut norms, seed, least, span);
    norm_rows(false, norms);
    norm_rows(true, norms);
}

// All norms the same but that of one band.
fn one_rows(band: usize, norm: u8, others: u8) {
    title(b"one", band as u64, u64::from(norm), u64::from(others));
    let mut norms = [others; 44];
    if band < 44 {
        norms[band] = norm;
    }
    norm_rows(false, norms);
    norm_rows(true, norms);
}

fn reads(s: [u8; 40], flag_n: bool) {
    read_row(norms::read_norms(&s, 0, 320, false, flag_n));
    read_row(norms::read_norms(&s, 0, 320, true, flag_n));
}

fn byte_rows(seed: u32) {
    let mut s = [0u8; 40];
    draw(&mut s, seed, 0, 0);
    title(b"bytes", u64::from(seed), 0, of_bytes(&s));
    reads(s, false);
    reads(s, true);
}

// A norm part by the numbers sent: three as they are given, then differences of 0.
fn sent_rows(first: u16, second: u16, third: u16, flag_n: bool) {
    title(
        b"sent",
        u64::from(first),
        u64::from(second),
        u64::from(third),
    );
    let mut kinds = [if flag_n { words::NORM_WORDS } else { 5 }; 44];
    kinds[0] = 5;
    let mut numbers = [15u16; 44];
    numbers[0] = first;
    numbers[1] = second;
    numbers[2] = third;
    let mut s = [0u8; 40];
    runs::write_words(&mut s, 0, &kinds, &numbers);
    reads(s, flag_n);
}

fn both_rows(first: u16, second: u16, third: u16) {
    sent_rows(first, second, third, false);
    sent_rows(first, second, third, true);
}

// Differences of 16 and -15, and those one further; both ends of the first index and of the others.
fn bounds() {
    for (band, norm, others) in [
        (43, 36, 20),
        (43, 37, 20),
        (43, 5, 20),
        (43, 4, 20),
        (6, 36, 20),
        (6, 37, 20),
        (6, 5, 20),
        (6, 4, 20),
        (0, 20, 20),
        (0, 31, 20),
        (0, 32, 20),
        (0, 39, 0),
        (22, 39, 30),
        (22, 40, 30),
    ] {
        one_rows(band, norm, others);
    }
}

// Wild, in range, smooth; the last three have words of 214 or 215 bits in one kind of frame or both.
fn draws() {
    for (seed, least, span) in [
        (1, 0, 44),
        (2, 0, 40),
        (3, 0, 40),
        (4, 0, 19),
        (5, 20, 20),
        (6, 10, 6),
        (13, 5, 16),
        (25, 5, 16),
        (244, 5, 16),
    ] {
        drawn_rows(seed, least, span);
    }
}

// Indices that stay in 0 to 39, and that leave it and come back.
fn leaves() {
    for (first, second, third) in [
        (31, 23, 7),
        (31, 24, 6),
        (31, 31, 0),
        (1, 14, 16),
        (0, 14, 16),
    ] {
        both_rows(first, second, third);
    }
}

// Rows of bytes drawn from seeds.
fn drawn_bytes() {
    for seed in [1, 6, 13] {
        byte_rows(seed);
    }
}

fn main() {
    order_row(order::sent_order(true, rising()));
    order_row(order::band_order(true, rising()));
    bounds();
    draws();
    leaves();
    drawn_bytes();
}
