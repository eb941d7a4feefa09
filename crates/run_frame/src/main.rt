// Reads the stored frames of standard input, every reply, size and flag, and writes a line for each.

#![tactic(auto)]

ghost use Rattle.std.specs.Prelude.{◌+◌, ◌*◌, ◌≤◌, length};

use frame::Reading;
use run_lines::hexadecimal::{byte, word};
use run_lines::{checksums, show};

// A source from its hexadecimal digits.
fn fill(src: &mut [u8], digits: &[u8])
    requires { length src.old * 2 ≤ length digits.now }
{
    for (i, b) in src.iter_mut().enumerate() {
        *b = byte(digits, i * 2);
    }
}

// The reply, the next place, the mode, IsTransient, FlagL, FlagN, FlagC, the noise, the tail's bit count, a checksum of the norms.
fn print(r: Reading) {
    show::decimal(u64::from(r.reply));
    show::number(r.next as u64);
    show::number(u64::from(r.record.mode));
    show::flag(r.record.transient);
    show::flag(r.record.flag_l);
    show::flag(r.record.flag_n);
    show::flag(r.record.flag_c);
    show::number(u64::from(r.record.noise));
    show::number(u64::from(r.record.tail_bits));
    show::number(checksums::of_bytes(&r.record.norms));
}

// Reads a frame into the first so many of the lent numbers and bytes.
fn read_into(src: &[u8], n: usize, codes: &mut [u16], m: usize, tail: &mut [u8]) -> Reading {
    let k = n.min(codes.len());
    let j = m.min(tail.len());
    frame::read(src, &mut codes[..k], &mut tail[..j])
}

// A frame read, then checksums of 824 numbers and of 336 bytes. The lent ones are the first of these, and before the call all of them are 42405 and
// 165: so the checksums show what a refusal leaves and what stands past 800 and 320.
fn read_and_show(src: &[u8], n: usize, m: usize) {
    let mut codes = [42405u16; 824];
    let mut tail = [165u8; 336];
    print(read_into(src, n, &mut codes, m, &mut tail));
    show::number(checksums::of_numbers(&codes));
    show::number(checksums::of_bytes(&tail));
    show::line_end();
}

// A line: three numbers of four hexadecimal digits (bytes of the source, lent numbers, lent tail bytes) and the source's bytes.
fn run_line(line: &[u8], n: usize)
    requires { (15 + n * 2 ≤ length line.now) × (n ≤ 400) }
{
    let mut src = [0u8; 400];
    fill(&mut src[..n], &line[15..]);
    read_and_show(
        &src[..n],
        usize::from(word(line, 5)),
        usize::from(word(line, 10)),
    );
}

fn run(s: &[u8]) {
    let mut rest = s;
    while 16 <= rest.len() {
        let n = usize::from(word(rest, 0));
        if 400 < n || rest.len() < 16 + n * 2 {
            return;
        }
        run_line(rest, n);
        rest = &rest[16 + n * 2..];
    }
}

fn main() {
    let mut input = io::large_buffer();
    let n = io::read_full(0, &mut input);
    run(&input[..n]);
}
