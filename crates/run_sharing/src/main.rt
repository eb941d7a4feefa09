// Runs the weights and the allotment on the lines of standard input, and prints what both calls answer.

#![tactic(auto)]

ghost use Rattle.std.specs.Prelude.{length, ◌≤◌};

use run_lines::show;

fn digit(b: u8) -> u8 {
    b.saturating_sub(b'0')
}

// Five digits written out: plainer than a loop and its bound.
fn budget_of(line: &[u8]) -> u32
    requires { 51 ≤ length line.now }
{
    let high = u32::from(digit(line[2])) * 100
        + u32::from(digit(line[3])) * 10
        + u32::from(digit(line[4]));
    high * 100 + u32::from(digit(line[5])) * 10 + u32::from(digit(line[6]))
}

fn norms_of(line: &[u8]) -> [u8; 44]
    requires { 51 ≤ length line.now }
{
    std::array::from_fn(|p| digit(line[7 + p]))
}

fn show_signed(v: i16) {
    show::text(if v < 0 {
        b" -".as_slice()
    } else {
        b" ".as_slice()
    });
    show::decimal(u64::from(v.unsigned_abs()));
}

// A line of 52 bytes: the kind of frame and whether bands 36 to 43 compete, each 0 or 1, five digits of budget, and 44 norm indices, each as the
// character 48 + index.
fn run(line: &[u8])
    requires { 51 ≤ length line.now }
{
    let transient = line[0] == b'1';
    let all = line[1] == b'1';
    let norms = norms_of(line);
    let budget = budget_of(line);
    let w = weights::weigh(transient, norms);
    show::text(b"weights");
    show::number(u64::from(w.reply));
    show::numbers(&w.weights);
    show::text(b"\nscores");
    for score in w.scores {
        show_signed(score);
    }
    let s = allotment::allot(transient, all, norms, budget);
    show::text(b"\nrates");
    show::number(u64::from(s.reply));
    show::numbers(&s.rates);
    show::text(b" left");
    show::number(u64::from(s.left));
    show::text(b" rounds");
    show::number(u64::from(s.rounds));
    show::line_end();
}

fn main() {
    let mut buf = io::buffer();
    let n = io::read_full(0, &mut buf);
    for line in buf[..n].chunks_exact(52) {
        run(line);
    }
}
