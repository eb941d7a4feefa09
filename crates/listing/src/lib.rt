// The listing of a recording (01, Lister): a line for each frame and the total line, laid into lent bytes.

#![tactic(auto)]

ghost use Rattle.std.specs.Prelude.{◌≡◌, ◌+◌, ◌≤◌, length};
ghost use Rattle.listing.specs.Text.{frame_line};
ghost use Rattle.ground.specs.Laying.{TextLaid};
ghost use Rattle.listing.specs.Listing.{total_of, most_bytes, room, answer_of, listed_in, out_after};
ghost use Rattle.listing.specs.Inner.{step_line, Complete};
ghost use Rattle.ground.specs.Numbered.{number};
ghost use Rattle.recording.specs.Walk.{stops, passes};

use decimals::{put_digits, put_number};
use ground::bytes::put;
use ground::replies::{DONE, Reply};
use recording::answer::Check;

// The most bytes of an input.
const MOST_BYTES: usize = 65536;

// Room for every listing: 3,000 lines of 11 bytes and a total of 30.
pub const ROOM: usize = 33030;

// Puts a frame's line: its number, its reply and its body bytes.
fn put_line(out: &mut [u8], at: usize, frame: usize, reply: u8, bytes: usize) -> usize
    requires { at + length (frame_line frame reply bytes) ≤ length out.old }
    ensures { TextLaid out.old at (frame_line frame reply bytes) out.new result }
{
    let a = put_digits(out, at, frame, 4);
    let b = put_number(out, a, b" ", usize::from(reply));
    let c = put_number(out, b, b" ", bytes);
    put(out, c, b"\n")
}

// Puts the total line: how many sound frames, the reply and its place.
fn put_total(out: &mut [u8], at: usize, found: Check) -> usize
    requires { at + length (total_of found) ≤ length out.old }
    ensures { TextLaid out.old at (total_of found) out.new result }
{
    let a = put_number(out, at, b"total ", found.count as usize);
    let b = put_number(out, a, b" answer ", usize::from(found.reply));
    let c = put_number(out, b, b" at ", found.place);
    put(out, c, b"\n")
}

// Puts the line of a sound frame by its bytes: one of one byte is one of no data.
#[tactic(auto, unfolding(crate::specs::Inner::step_line))]
fn put_sound(out: &mut [u8], at: usize, frame: usize, bytes: usize) -> usize
    requires { at + length (step_line frame (passes bytes)) ≤ length out.old }
    ensures { TextLaid out.old at (step_line frame (passes bytes)) out.new result }
{
    if 1 < bytes {
        put_line(out, at, frame, DONE, bytes - 1)
    } else {
        put_line(out, at, frame, Reply::NoData.into(), 0)
    }
}

// Puts the line of a refused frame; a byte behind 3,000 frames, which is unread, has none.
#[tactic(auto, using(crate::proofs::Laws::Listed::laid_nothing), unfolding(crate::specs::Inner::step_line))]
fn put_refused(out: &mut [u8], at: usize, frame: usize, reply: Reply) -> usize
    requires { at + length (step_line frame (stops (number reply))) ≤ length out.old }
    ensures { TextLaid out.old at (step_line frame (stops (number reply))) out.new result }
{
    if reply == Reply::TooMany {
        at
    } else {
        put_line(out, at, frame, reply.into(), 0)
    }
}

// Puts the lines of a recording's frames, step by step as the file check walks: what the walk answers, and the place after the lines.
fn put_lines(src: &[u8], out: &mut [u8]) -> (Check, usize)
    requires { (length src.now ≤ most_bytes) × (room ≤ length out.old) }
    ensures { Complete src.now out.old out.new result }
{
    let mut next = 0;
    let mut count = 0;
    let mut place = 0;
    // A step decides where the walk ends, so no range counts the frames.
    let reply = loop {
        match recording::step(src, place, count, 1) {
            Ok(Some(bytes)) => {
                next = put_sound(out, next, count as usize, bytes);
                place += bytes;
                count += 1;
            }
            Ok(None) => break DONE,
            Err(reply) => {
                next = put_refused(out, next, count as usize, reply);
                break reply.into();
            }
        }
    };
    let found = Check {
        reply,
        count,
        place,
    };
    (found, next)
}

// Lists a recording: 10 if the room is short; else the length of the text, which is at the front of the output. An input over 65,536 bytes has one line.
pub fn list(src: &[u8], out: &mut [u8]) -> Result<usize, Reply>
    ensures { (answer_of result ≡ listed_in src.now (length out.old)) × (out.new ≡ out_after src.now out.old) }
{
    if out.len() < ROOM {
        return Err(Reply::ShortRoom);
    }
    let too_long = MOST_BYTES < src.len();
    if too_long {
        return Ok(put(out, 0, b"input too long\n"));
    }
    let (found, next) = put_lines(src, out);
    Ok(put_total(out, next, found))
}
