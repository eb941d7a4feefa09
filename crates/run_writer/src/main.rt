// Runs the writer, the empty frame and the FlagC choice on the lines of standard input, at most 65,536 bytes, and writes a line for each.

#![tactic(auto)]

use frame::Record;
use ground::replies::{DONE, number_of};
use run_lines::lists::Line;
use run_lines::show;

fn yes(b: bool) {
    show::text(if b { b" yes" } else { b" no" });
}

// Reads a frame back: the reply, and whether record, codes and tail are those written.
fn show_back(r: Record, codes: &[u16], tail: &[u8], written: &[u8]) {
    let mut numbers = [42405u16; 800];
    let mut rest = [165u8; 320];
    let got = frame::read(written, &mut numbers, &mut rest);
    show::number(u64::from(got.reply));
    yes(got.record == r);
    yes(codes.starts_with(&numbers));
    yes(tail.starts_with(&rest));
}

// The reply, the next place, and what stands in the whole lent output after the call; after a reply 0 also what is read back.
fn write_and_show(r: Record, codes: &[u16], tail: &[u8], out: &mut [u8]) {
    let w = writer::write(r, codes, tail, out);
    show::answer(b"w", w.reply, w.next);
    show::output(out);
    if w.reply == DONE {
        show_back(r, codes, tail, out);
    }
    show::line_end();
}

// A line of w: seven numbers and norms of a record, the lent codes, the lent tail, the lent output.
fn run_write(s: &[u8]) {
    let mut codes = [0u16; 824];
    let mut tail = [0u8; 336];
    let mut out = [0u8; 400];
    let mut line = Line { rest: s };
    let record = line.record();
    let n = line.fill_numbers(&mut codes);
    let m = line.fill_bytes(&mut tail);
    let k = line.fill_bytes(&mut out);
    write_and_show(record, &codes[..n], &tail[..m], &mut out[..k]);
}

// The reply and the flag.
fn choose_and_show(r: Record, codes: &[u16]) {
    let c = choice::choose_flag_c(r, codes);
    show::text(b"c");
    show::number(u64::from(number_of(c.map(|_| ()))));
    show::flag(c.unwrap_or(false));
    show::line_end();
}

// A line of c: seven numbers and norms of a record, the lent codes.
fn run_choice(s: &[u8]) {
    let mut codes = [0u16; 824];
    let mut line = Line { rest: s };
    let record = line.record();
    let n = line.fill_numbers(&mut codes);
    choose_and_show(record, &codes[..n]);
}

// The reply, the next place, and the lent output after the call.
fn empty_and_show(out: &mut [u8]) {
    let w = writer::write_empty(out);
    show::answer(b"e", w.reply, w.next);
    show::bytes(out);
    show::line_end();
}

// A line of e: the lent output.
fn run_empty(s: &[u8]) {
    let mut out = [0u8; 400];
    let n = Line { rest: s }.fill_bytes(&mut out);
    empty_and_show(&mut out[..n]);
}

// A line is a letter and lists. A line of # is a heading, written as it stands; of another letter an empty line is written.
fn run_line(line: &[u8]) {
    match line.split_first() {
        Some((b'#', _)) => show::text(line),
        Some((b'c', lists)) => run_choice(lists),
        Some((b'e', lists)) => run_empty(lists),
        Some((b'w', lists)) => run_write(lists),
        _ => show::line_end(),
    }
}

fn run(s: &[u8]) {
    for line in s.split_inclusive(|b| *b == b'\n') {
        run_line(line);
    }
}

fn main() {
    let mut input = io::large_buffer();
    let n = io::read_full(0, &mut input);
    run(&input[..n]);
}
