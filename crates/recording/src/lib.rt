// The file check (01, File check): every frame of a recording read in full, its sound frames counted and held against a booking. One walk serves
// one channel and several: it goes from block to block, and with one channel a block is a frame (02, No. 2).

#![tactic(auto)]

ghost use Rattle.std.specs.Prelude.{◌≡◌, ◌-◌, ◌≤◌, drop};
ghost use Rattle.recording.specs.Walk.{frame_step, next_step, most_frames, check_of};
ghost use Rattle.ground.specs.Numbered.{number};
ghost use Rattle.recording.specs.Told.{told, told_step};
ghost use Rattle.recording.specs.Inner.{reply_behind};
ghost use Rattle.recording.specs.Blocks.{is_count, block_step, walk_blocks, check_blocks};

use answer::Check;
use ground::replies::{DONE, Reply};

pub mod answer;

// The most sound units of a recording: frames, or blocks of several channels.
const MOST_UNITS: u32 = 3000;

// Whether a recording may have so many channels: 1 to 8.
#[tactic(auto, unfolding(crate::specs::Blocks::is_count))]
pub fn is_count(channels: usize) -> bool
    ensures { result ≡ is_count channels }
{
    (1..=8).contains(&channels)
}

// Passes the frame at the start of a slice, which is read in full: its bytes where it is sound, with 0 or with 14 for no data, else why it is not.
// The reply is a number here, as `read_record` answers it.
#[tactic(auto, using(crate::proofs::Laws::Reads::reading_stops))]
fn pass_frame(src: &[u8]) -> Result<usize, Reply>
    ensures { told result ≡ frame_step src.now }
{
    let one = frame::read_record(src);
    match one.reply {
        1 => Err(Reply::NoByte),
        2 => Err(Reply::Marked),
        3 => Err(Reply::Reserved),
        4 => Err(Reply::Cut),
        5 => Err(Reply::NormOutside),
        6 => Err(Reply::NoWord),
        7 => Err(Reply::PastBudget),
        _ => Ok(one.next),
    }
}

// The reply of a frame behind so many others of its block: a missing one is cut off.
fn reply_behind(frames: usize, reply: Reply) -> Reply
    ensures { number result ≡ reply_behind frames (number reply) }
{
    if 0 < frames && reply == Reply::NoByte {
        Reply::Cut
    } else {
        reply
    }
}

// Passes the block at the start of a slice: each of its frames is read in full, and the first that is not sound stops it.
pub fn pass_block(src: &[u8], channels: usize) -> Result<usize, Reply>
    ensures { told result ≡ block_step channels src.now }
{
    let mut at = 0;
    for c in 0..channels {
        match pass_frame(&src[at..]) {
            Ok(bytes) => at += bytes,
            Err(reply) => return Err(reply_behind(c, reply)),
        }
    }
    Ok(at)
}

// One step of the walk: what stands at a place behind so many sound units, none at the end. A byte behind 3,000 units is 15, unread.
#[tactic(auto, using(crate::proofs::Laws::Walked::step_end, crate::proofs::Laws::Walked::step_full, crate::proofs::Laws::Walked::step_unit))]
pub fn step(src: &[u8], at: usize, count: u32, channels: usize) -> Result<Option<usize>, Reply>
    ensures { told_step result ≡ next_step (block_step channels) (most_frames - count) (drop at src.now) }
{
    if src.len() <= at {
        return Ok(None);
    }
    if MOST_UNITS <= count {
        return Err(Reply::TooMany);
    }
    let bytes = pass_block(&src[at..], channels)?;
    Ok(Some(bytes))
}

// Walks over a recording of several channels, step by step, to the end or a stop: its number, the sound blocks in front of it and its place.
pub fn walk_blocks(src: &[u8], channels: usize) -> Check
    requires { 1 ≤ channels }
    ensures { result ≡ walk_blocks channels src.now }
{
    let mut at = 0;
    let mut count = 0;
    // A step decides where the walk ends, so no range counts the blocks.
    let reply = loop {
        match step(src, at, count, channels) {
            Ok(Some(bytes)) => {
                at += bytes;
                count += 1;
            }
            Ok(None) => break DONE,
            Err(reply) => break reply.into(),
        }
    };
    Check {
        reply,
        count,
        place: at,
    }
}

// Checks a recording of several channels: what the walk says, and at the end 11 if the count of blocks is not as booked.
#[tactic(auto, using(crate::proofs::Laws::Walked::check_missed, crate::proofs::Laws::Walked::check_agreed, crate::proofs::Laws::Walked::check_other))]
pub fn check_blocks(src: &[u8], channels: usize, booking: u32) -> Check
    requires { 1 ≤ channels }
    ensures { result ≡ check_blocks channels src.now booking }
{
    let found = walk_blocks(src, channels);
    if found.reply == DONE && found.count != booking {
        return Check {
            reply: Reply::NotAsBooked.into(),
            ..found
        };
    }
    found
}

// Checks a recording of one channel, frame by frame.
pub fn check(src: &[u8], booking: u32) -> Check
    ensures { result ≡ check_of src.now booking }
{
    check_blocks(src, 1, booking)
}
