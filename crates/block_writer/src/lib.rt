// A block of several channels written (A.4.2; 02, No. 2): every frame is tried first, channel by channel, then the room; only then is anything laid.

#![tactic(auto)]

ghost use Rattle.std.specs.Prelude.{◌≡◌, ◌++◌, ◌+◌, ◌*◌, ◌≤◌, ◌<◌, length, take, drop, sum_by};
ghost use Rattle.ground.specs.Numbered.{reply_of};
ghost use Rattle.ground.specs.Refusals.{first};
ghost use Rattle.ground.specs.Runs.{runs, part};
ghost use Rattle.block_writer.specs.Writing.{frame_causes, causes_at, frame_of, block_bytes, block_reply, block_answer, out_after};
ghost use Rattle.block_writer.specs.Inner.{frame_bytes};

use frame::Record;
use ground::replies::Reply;
use prefix::Mode;
use writer::Writing;

// What a block is written from: the record of each channel's frame, or None for an empty frame.
#[derive(Clone, Copy)]
pub struct Records {
    pub at: [Option<Record>; 8],
}

// Channel c's own 800 numbers and 320 bytes.
fn own<'a>(codes: &'a [u16], tails: &'a [u8], c: usize) -> (&'a [u16], &'a [u8])
    requires { (c < 8) × (c * 800 + 800 ≤ length codes.now) × (c * 320 + 320 ≤ length tails.now) }
    ensures { (result.0.now ≡ part 800 codes.now c) × (result.1.now ≡ part 320 tails.now c) }
{
    let a = c * 800;
    let t = c * 320;
    (&codes[a..a + 800], &tails[t..t + 320])
}

// A frame's own causes, with room for the longest: an empty frame has none.
fn frame_reply(given: Option<Record>, codes: &[u16], tail: &[u8]) -> Result<(), Reply>
    ensures { reply_of result ≡ first (frame_causes given codes.now tail.now) }
{
    match given {
        None => Ok(()),
        Some(record) => writer::write_reply(record, codes, tail, 321),
    }
}

// The bytes of a frame with its prefix byte.
fn frame_bytes(given: Option<Record>) -> usize
    ensures { (result ≡ frame_bytes given) × (result ≤ 321) }
{
    match given {
        None => 1,
        Some(record) => usize::from(Mode(record.mode).bytes()) + 1,
    }
}

// The first frame's causes, channel by channel.
fn frames_reply(records: Records, channels: usize, codes: &[u16], tails: &[u8]) -> Result<(), Reply>
    requires { (channels ≤ 8) × (channels * 800 ≤ length codes.now) × (channels * 320 ≤ length tails.now) }
    ensures { reply_of result ≡ first (runs channels (causes_at records codes.now tails.now)) }
{
    for (c, given) in records.at[..channels].iter().enumerate() {
        let (numbers, bytes) = own(codes, tails, c);
        frame_reply(*given, numbers, bytes)?;
    }
    Ok(())
}

// The bytes of all frames.
fn block_bytes(given: &[Option<Record>]) -> usize
    requires { length given.now ≤ 8 }
    ensures { result ≡ sum_by frame_bytes given.now }
{
    given.iter().map(|frame| frame_bytes(*frame)).sum()
}

// 17 and 10 for the call, each frame's causes channel by channel, and last 10 for the output.
fn block_reply(
    records: Records,
    channels: usize,
    codes: &[u16],
    tails: &[u8],
    room: usize,
) -> Result<(), Reply>
    ensures { reply_of result ≡ block_reply records channels codes.now tails.now room }
{
    frames::room_reply(channels, codes.len(), tails.len())?;
    frames_reply(records, channels, codes, tails)?;
    if room < block_bytes(&records.at[..channels]) {
        return Err(Reply::ShortRoom);
    }
    Ok(())
}

// Lays one frame that passes at the start of a slice that holds it; answers its bytes.
fn put_frame(given: Option<Record>, codes: &[u16], tail: &[u8], out: &mut [u8]) -> usize
    requires { (first (frame_causes given codes.now tail.now) ≡ 0) × (frame_bytes given ≤ length out.old) }
    ensures { (result ≡ frame_bytes given)
        × (out.new ≡ frame_of given codes.now tail.now ++ drop (frame_bytes given) out.old) }
{
    match given {
        None => writer::write_empty(out).next,
        Some(record) => writer::write(record, codes, tail, out).next,
    }
}

// Lays the frames of a block that passes one behind the other; answers their bytes.
fn put_block(
    records: Records,
    channels: usize,
    codes: &[u16],
    tails: &[u8],
    out: &mut [u8],
) -> usize
    requires { block_reply records channels codes.now tails.now (length out.old) ≡ 0 }
    ensures { (result ≡ length (block_bytes records channels codes.now tails.now))
        × (out.new ≡ block_bytes records channels codes.now tails.now ++ drop result out.old) }
{
    let mut at = 0;
    for (c, given) in records.at[..channels].iter().enumerate() {
        let (numbers, bytes) = own(codes, tails, c);
        at += put_frame(*given, numbers, bytes, &mut out[at..]);
    }
    at
}

// Writes a block: 17, 10 for numbers and bytes, then each frame's own causes channel by channel, and last 10 for the output. Only 0 changes the
// output, and exactly the block's bytes.
pub fn write_block(
    records: Records,
    channels: u8,
    codes: &[u16],
    tails: &[u8],
    out: &mut [u8],
) -> Writing
    ensures { (result ≡ block_answer (block_reply records channels codes.now tails.now (length out.old)) records channels codes.now tails.now)
        × (out.new ≡ out_after (block_reply records channels codes.now tails.now (length out.old)) records channels codes.now tails.now out.old) }
{
    let n = usize::from(channels);
    match block_reply(records, n, codes, tails, out.len()) {
        Ok(()) => Writing::from(Ok(put_block(records, n, codes, tails, out))),
        Err(reply) => Writing::from(Err(reply)),
    }
}
