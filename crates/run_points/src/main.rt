// Runs the four point calls on the lines of standard input, and writes a line for each answer.

#![tactic(auto)]

ghost use Rattle.std.specs.Prelude.{◌≡◌, length};

use codebook::Row;
use ground::numbers::{lower, raise};
use points::{Index, Point};
use run_lines::hexadecimal::{byte, word};
use run_lines::show;

// The eight numbers of a line, which stand from its sixth byte on.
fn indices(line: &[u8]) -> [u16; 8]
    requires { length line.now ≡ 45 }
{
    std::array::from_fn(|i| word(line, 5 + i * 5))
}

// The same numbers as coordinates.
fn coordinates(line: &[u8]) -> [i16; 8]
    requires { length line.now ≡ 45 }
{
    indices(line).map(|n| lower(u32::from(n), 32768))
}

fn print(reply: u8, numbers: [u16; 8]) {
    show::hexadecimal(u64::from(reply), 2);
    for n in numbers {
        show::text(b" ");
        show::hexadecimal(u64::from(n), 4);
    }
    show::line_end();
}

fn print_point(p: Point) {
    print(p.reply, p.at.map(|z| raise(z) as u16));
}

fn print_index(a: Index) {
    print(a.reply, a.at);
}

fn print_row(a: Row) {
    print(a.reply, [u16::from(a.index), 0, 0, 0, 0, 0, 0, 0]);
}

// A line, 45 bytes: the call (p and i: point and index of the lattice, r and n: row and number in the codebook), the rate, and eight numbers, all hexadecimal.
// A coordinate is raised by 8000.
fn run_line(line: &[u8])
    requires { length line.now ≡ 45 }
{
    let rate = byte(line, 2);
    match line[0] {
        b'p' => print_point(points::lattice_point(rate, &indices(line))),
        b'i' => print_index(points::lattice_index(rate, &coordinates(line))),
        b'r' => print_point(codebook::codebook_point(rate, word(line, 5))),
        b'n' => print_row(row_search::codebook_index(rate, &coordinates(line))),
        _ => {}
    }
}

fn run(s: &[u8]) {
    for line in s.chunks_exact(45) {
        run_line(line);
    }
}

fn main() {
    let mut input = io::large_buffer();
    let n = io::read_full(0, &mut input);
    run(&input[..n]);
}
