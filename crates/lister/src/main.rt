// The lister (01, Lister): a line for each frame of the recording on standard input, then the total line. One line alone for more than 65,536
// bytes, for an input that could not be read, and for an argument.

#![tactic(auto)]

ghost use Rattle.std.specs.Prelude.{◌≡◌, ◌≤◌, length, IfOk};
ghost use Rattle.lister.specs.Inner.{told};

use std::env::FillError;
use std::io::Read;
use std::rt::{Env, Stdin};

// The streams by their numbers.
const STDOUT_FILENO: i32 = 1;

const STDERR_FILENO: i32 = 2;

// The most bytes of an input and one byte more, which shows that it is too long.
const MOST_INPUT: usize = 65537;

// What a read says: how many bytes it gave, none at the end of the input. One that fails is not the end.
fn told(read: std::io::Result<usize>) -> std::io::Result<Option<usize>>
    ensures { result ≡ told read }
{
    let n = read?;
    Ok((0 < n).then_some(n))
}

// Reads until the input ends, the room is full or a read fails. Bytes that came before a failure are not kept.
fn read_input(stdin: &mut Stdin, room: &mut [u8]) -> std::io::Result<usize>
    ensures { IfOk result (λ n. n ≤ length room.new) }
{
    let mut at = 0;
    while at < room.len() {
        let Some(n) = told(stdin.read(&mut room[at..]))? else {
            break;
        };
        at += n;
    }
    Ok(at)
}

// Room of so many bytes. A function, so that a proof knows its length and not each byte.
fn room<const N: usize>() -> [u8; N]
    ensures { length result ≡ N }
{
    [0; N]
}

// Writes to standard output. The lister ends with 0 whatever happens, so a failure is told on standard error.
fn write_out(text: &[u8]) {
    if !io::write_all(STDOUT_FILENO, text) {
        io::write_all(STDERR_FILENO, b"output not written\n");
    }
}

fn write_listing(input: &[u8]) {
    let mut out = room::<{ listing::ROOM }>();
    if let Ok(n) = listing::list(input, &mut out) {
        write_out(&out[..n]);
    }
}

// Whether an argument was given.
fn has_argument(rt: &impl Env) -> bool {
    let mut first = [0u8; 1];
    !matches!(rt.arg(1, &mut first), Err(FillError::NotPresent))
}

fn main(rt: HostRuntime) {
    if has_argument(&rt) {
        write_out(b"usage: lister < recording\n");
        return;
    }
    let mut input = room::<MOST_INPUT>();
    let mut stdin = rt.stdin();
    match read_input(&mut stdin, &mut input) {
        Ok(n) => write_listing(&input[..n]),
        Err(_) => write_out(b"input not read\n"),
    }
}
