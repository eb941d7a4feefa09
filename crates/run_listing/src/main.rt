// Lists recordings at the bounds of 01: the printed examples, 3,000 empty frames and one byte more, 65,536 bytes and one more, a room that is short.

#![tactic(auto)]

use ground::replies::{DONE, Reply};
use run_lines::show;

// How many bytes of a text are newlines.
fn lines(text: &[u8]) -> usize {
    text.iter().filter(|b| **b == b'\n').count()
}

// The reply, the length and how many lines there are; then the last 64 bytes of the text, or all.
fn tell(text: &[u8], answer: Result<usize, Reply>) {
    let (reply, length) = match answer {
        Ok(n) => (DONE, n),
        Err(reply) => (reply.into(), 0),
    };
    show::decimal(u64::from(reply));
    show::number(length as u64);
    show::number(lines(text) as u64);
    show::line_end();
    show::text(&text[text.len().saturating_sub(64)..]);
}

// Lists a recording.
fn run(src: &[u8]) {
    let mut out = [0u8; 33030];
    let answer = listing::list(src, &mut out);
    let length = answer.unwrap_or(0).min(33030);
    tell(&out[..length], answer);
}

// So many empty frames.
fn run_zeros(n: usize) {
    let zeros = [0u8; 65537];
    run(&zeros[..n.min(65537)]);
}

// Two empty frames, and a room that is short: its bytes stay.
fn run_short() {
    let mut out = *b"as it was\n";
    let answer = listing::list(&[0, 0], &mut out);
    tell(&out, answer);
}

fn main() {
    run_zeros(2);
    run(&[0, 32]);
    run_zeros(0);
    run_zeros(3000);
    run_zeros(3001);
    run_zeros(65536);
    run_zeros(65537);
    run(&[0, 128]);
    run(&[0, 4]);
    run_short();
}
