// Recordings of several channels (02, No. 2): checked in blocks, and one channel taken out. Frames are copied as stored.

#![tactic(auto)]

ghost use Rattle.std.specs.Prelude.{◌≡◌, length, take, drop, ◌++◌, ◌+◌, ◌≤◌};
ghost use Rattle.frames.specs.Places.{size_at, place_from};
ghost use Rattle.channels.specs.Copies.{check_answer, refused_copy, stopped_copy, is_among, extracted, extract_answer, extract_after};

use ground::replies::{DONE, Reply};
use recording::answer::Check;

// What copying answers: 0 with the count of the blocks and the bytes written; a recording that is refused with its number, from 1 in a join, and the
// check's own count and place; or the reply alone. C reads this struct: g719_extract and g719_join hand it on.
#[repr(C)]
#[derive(Clone, Copy)]
pub struct Copied {
    pub reply: u8,
    pub which: u8,
    pub count: u32,
    pub place: usize,
    pub length: usize,
}

pub fn refusal(reply: u8) -> Copied
    ensures { result ≡ refused_copy reply }
{
    Copied {
        reply,
        which: 0,
        count: 0,
        place: 0,
        length: 0,
    }
}

// A recording's own check, of the recording with this number.
pub fn stopped(found: Check, which: u8) -> Copied
    ensures { result ≡ stopped_copy found which }
{
    Copied {
        reply: found.reply,
        which,
        count: found.count,
        place: found.place,
        length: 0,
    }
}

// Checks a recording of several channels: 17 for other than 1 to 8 of them, else as the file check with blocks for frames.
pub fn check_blocks(src: &[u8], channels: u8, booking: u32) -> Check
    ensures { result ≡ check_answer src.now channels booking }
{
    let n = usize::from(channels);
    if !recording::is_count(n) {
        return Check {
            reply: Reply::WrongChannels.into(),
            count: 0,
            place: 0,
        };
    }
    recording::check_blocks(src, n, booking)
}

// Whether the channel, from 0, is one of 1 to 8.
fn is_among(channels: usize, channel: usize) -> bool
    ensures { result ≡ is_among channels channel }
{
    recording::is_count(channels) && channel < channels
}

// The frame at a place, and the place of the same channel's next one.
fn frame_and_next(src: &[u8], at: usize, channels: usize) -> (&[u8], usize)
    requires { at ≤ length src.now }
    ensures { (result.0.now ≡ take (size_at (drop at src.now)) (drop at src.now)) × (result.1 ≡ place_from src.now at channels) }
{
    let end = at + frames::size_at(src, at);
    (&src[at..end], frames::place_behind(src, at, channels))
}

// The bytes of the channel's frames, in so many blocks.
fn channel_bytes(src: &[u8], channels: usize, channel: usize, blocks: u32) -> usize
    requires { 1 ≤ channels }
    ensures { result ≡ length (extracted channels channel blocks src.now) }
{
    let mut at = frames::place_behind(src, 0, channel);
    let mut n = 0;
    for _ in 0..blocks {
        let (frame, next) = frame_and_next(src, at, channels);
        n += frame.len();
        at = next;
    }
    n
}

// Copies the channel's frames of so many blocks to the front of the output.
fn copy_channel(src: &[u8], channels: usize, channel: usize, blocks: u32, out: &mut [u8])
    requires { length (extracted channels channel blocks src.now) ≤ length out.old }
    ensures { out.new ≡ extracted channels channel blocks src.now ++ drop (length (extracted channels channel blocks src.now)) out.old }
{
    let mut from = frames::place_behind(src, 0, channel);
    let mut to = 0;
    for _ in 0..blocks {
        let (frame, next) = frame_and_next(src, from, channels);
        to = ground::bytes::put(out, to, frame);
        from = next;
    }
}

// Takes one channel, from 0, out of a recording: 17, then the recording's own check save 11, and last 10 for the output. Only 0 changes the output.
pub fn extract(src: &[u8], channels: u8, channel: u8, out: &mut [u8]) -> Copied
    ensures { (result ≡ extract_answer src.now channels channel (length out.old))
        × (out.new ≡ extract_after src.now channels channel out.old) }
{
    let n = usize::from(channels);
    let k = usize::from(channel);
    if !is_among(n, k) {
        return refusal(Reply::WrongChannels.into());
    }
    let found = recording::walk_blocks(src, n);
    let reply = found.reply;
    if reply != DONE {
        return stopped(found, 0);
    }
    let count = found.count;
    let length = channel_bytes(src, n, k, count);
    if out.len() < length {
        return refusal(Reply::ShortRoom.into());
    }
    copy_channel(src, n, k, count, out);
    Copied {
        reply: DONE,
        which: 0,
        count,
        place: found.place,
        length,
    }
}
