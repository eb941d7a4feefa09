// Runs the calls on several channels on the lines of standard input, at most 65,536 bytes, every reply, and writes a line for each.

#![tactic(auto)]

ghost use Rattle.std.specs.Prelude.{◌≤◌, length};

use block_reader::Block;
use block_writer::Records;
use channels::Copied;
use frame::{Reading, Record};
use run_lines::checksums::mixed;
use run_lines::lists::Line;
use run_lines::numbers::low;
use run_lines::{checksums, show};

// A checksum of a record: its norms, then mode, flags, noise and tail's bit count.
fn check_record(r: Record) -> u64 {
    let norms = r.norms;
    [
        u16::from(r.mode),
        u16::from(r.transient),
        u16::from(r.flag_l),
        u16::from(r.flag_n),
        u16::from(r.flag_c),
        u16::from(r.noise),
        r.tail_bits,
    ]
    .iter()
    .fold(
        checksums::of_bytes(&norms),
        |sum, number| mixed(sum, *number),
    )
}

fn show_reading(r: Reading) {
    show::number(u64::from(r.reply));
    show::number(r.next as u64);
    show::number(check_record(r.record));
}

fn show_block(b: Block) {
    show::answer(b"r", b.reply, b.next);
    for frame in b.frames.iter() {
        show_reading(*frame);
    }
}

// Reads a block into the first so many of the lent numbers and bytes.
fn read_into(
    src: &[u8],
    channel_count: u8,
    n: usize,
    codes: &mut [u16],
    m: usize,
    tails: &mut [u8],
) -> Block {
    let k = n.min(codes.len());
    let j = m.min(tails.len());
    block_reader::read_block(src, channel_count, &mut codes[..k], &mut tails[..j])
}

// A line of r: channels, how many numbers and how many bytes are lent; the source. Written: reply and next place; of each of the eight frames its reply, its
// next place and a checksum of its record; checksums of 6,424 numbers and of 2,584 bytes. The lent ones are the first of these, and before the call all of them
// are 42405 and 165: so the checksums show what a refusal and an empty frame leave, and what stands past the block.
fn read_and_show(head: [u16; 10], src: &[u8]) {
    let mut codes = [42405u16; 6424];
    let mut tails = [165u8; 2584];
    show_block(read_into(
        src,
        low(head[0]),
        usize::from(head[1]),
        &mut codes,
        usize::from(head[2]),
        &mut tails,
    ));
    show::number(checksums::of_numbers(&codes));
    show::number(checksums::of_bytes(&tails));
    show::line_end();
}

// A line of b: channels and booking; the source. Written: reply, count, place.
fn check_and_show(head: [u16; 10], src: &[u8]) {
    let c = channels::check_blocks(src, low(head[0]), u32::from(head[1]));
    show::text(b"b");
    show::number(u64::from(c.reply));
    show::number(u64::from(c.count));
    show::number(c.place as u64);
    show::line_end();
}

// Reply, which, count, place, length, and what stands in the whole lent output after the call.
fn show_copied(name: &[u8], c: Copied, out: &[u8]) {
    show::text(name);
    show::number(u64::from(c.reply));
    show::number(u64::from(c.which));
    show::number(u64::from(c.count));
    show::number(c.place as u64);
    show::number(c.length as u64);
    show::output(out);
    show::line_end();
}

// A line of x: channels and channel; the source, the lent output.
fn extract_and_show(head: [u16; 10], src: &[u8], out: &mut [u8]) {
    let c = channels::extract(src, low(head[0]), low(head[1]), out);
    show_copied(b"x", c, out);
}

// A line of j: the lengths, so many; the source, the lent output.
fn join_and_show(head: [u16; 10], count: usize, src: &[u8], out: &mut [u8])
    requires { count ≤ 10 }
{
    let lengths = head.map(u32::from);
    let c = joining::join(src, &lengths[..count], out);
    show_copied(b"j", c, out);
}

fn call_and_show(call: u8, head: [u16; 10], count: usize, src: &[u8], out: &mut [u8])
    requires { count ≤ 10 }
{
    match call {
        b'r' => read_and_show(head, src),
        b'b' => check_and_show(head, src),
        b'x' => extract_and_show(head, src, out),
        b'j' => join_and_show(head, count, src, out),
        _ => show::line_end(),
    }
}

// The lists of a line of r, b, x or j: numbers, the source and, of x and j, the lent output.
fn run_call(call: u8, s: &[u8]) {
    let mut head = [0u16; 10];
    let mut src = [0u8; 6016];
    let mut out = [0u8; 6016];
    let mut line = Line { rest: s };
    let i = line.fill_numbers(&mut head);
    let j = line.fill_bytes(&mut src);
    let k = line.fill_bytes(&mut out);
    call_and_show(call, head, i, &src[..j], &mut out[..k]);
}

fn records_of(one: Record, other: Record, empty: [u8; 8]) -> Records {
    let mut at = empty.map(|flag| (flag != 1).then_some(other));
    at[0] = at[0].and(Some(one));
    Records { at }
}

fn write_and_show(records: Records, n: u8, codes: &[u16], tails: &[u8], out: &mut [u8]) {
    let w = block_writer::write_block(records, n, codes, tails, out);
    show::answer(b"w", w.reply, w.next);
    show::output(out);
    show::line_end();
}

// The lent codes, the lent tails, the lent output, which come next. Written: reply, next place, and what stands in the whole lent output after the call.
fn run_records(mut line: Line, records: Records, n: u8) {
    let mut codes = [0u16; 6424];
    let mut tails = [0u8; 2584];
    let mut out = [0u8; 2600];
    let i = line.fill_numbers(&mut codes);
    let j = line.fill_bytes(&mut tails);
    let k = line.fill_bytes(&mut out);
    write_and_show(records, n, &codes[..i], &tails[..j], &mut out[..k]);
}

// A line of w: channels; for each of the eight 1 if its frame is empty; seven numbers and norms of the first channel's record; the same of all
// others; then those of run_records.
fn run_write(s: &[u8]) {
    let mut head = [0u16; 1];
    let mut empty = [0u8; 8];
    let mut line = Line { rest: s };
    line.fill_numbers(&mut head);
    line.fill_bytes(&mut empty);
    let one = line.record();
    let other = line.record();
    run_records(line, records_of(one, other, empty), low(head[0]));
}

// A line is a letter and lists. A line of # is a heading, written as it stands; of another letter an empty line is written.
fn run_line(line: &[u8]) {
    match line {
        [] => {}
        [b'#', ..] => show::text(line),
        [b'w', lists @ ..] => run_write(lists),
        [call, lists @ ..] => run_call(*call, lists),
    }
}

fn run(s: &[u8]) {
    for line in s.split_inclusive(|byte| *byte == b'\n') {
        run_line(line);
    }
}

fn main() {
    let mut input = io::large_buffer();
    let n = io::read_full(0, &mut input);
    run(&input[..n]);
}
