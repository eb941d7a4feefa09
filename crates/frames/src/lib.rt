// The stored frames of a recording: where each begins, and how many bytes it has, by the prefix bytes alone.

#![tactic(auto)]

ghost use Rattle.std.specs.Prelude.{◌≡◌, ◌≤◌, length, drop};
ghost use Rattle.ground.specs.Numbered.{reply_of};
ghost use Rattle.ground.specs.Refusals.{first};
ghost use Rattle.prefix.specs.Prefix.{prefix_of};
ghost use Rattle.frames.specs.Places.{said_bytes, size_at, place_from};
ghost use Rattle.frames.specs.Rooms.{room_causes};

use ground::replies::Reply;
use prefix::Prefix;

// The bytes that the prefix byte says, with it; none where it says no frame.
fn said_bytes(src: &[u8]) -> usize
    ensures { result ≡ said_bytes (prefix_of src.now) }
{
    match prefix::read_prefix(src) {
        Prefix::NoByte | Prefix::Marked | Prefix::Reserved => 0,
        Prefix::NoData => 1,
        Prefix::Data(l) => usize::from(l.bytes()) + 1,
    }
}

// The bytes of the frame at a place, at most those that are there.
pub fn size_at(src: &[u8], at: usize) -> usize
    ensures { result ≡ size_at (drop at src.now) }
{
    let Some(rest) = src.get(at..) else {
        return 0;
    };
    said_bytes(rest).min(rest.len())
}

// The place so many frames behind a place.
pub fn place_behind(src: &[u8], at: usize, frames: usize) -> usize
    requires { at ≤ length src.now }
    ensures { result ≡ place_from src.now at frames }
{
    let mut p = at;
    for _ in 0..frames {
        p += size_at(src, p);
    }
    p
}

// 17 for other than 1 to 8 channels, 10 for under 800 numbers or 320 bytes a channel.
pub fn room_reply(channels: usize, codes: usize, tails: usize) -> Result<(), Reply>
    ensures { reply_of result ≡ first (room_causes channels codes tails) }
{
    if !recording::is_count(channels) {
        return Err(Reply::WrongChannels);
    }
    if codes < channels * 800 || tails < channels * 320 {
        return Err(Reply::ShortRoom);
    }
    Ok(())
}
