// A block of several channels read (A.4.2; 02, No. 2): the whole of it is tried first, then each frame into its own part of the lent memory.

#![tactic(auto)]

ghost use Rattle.std.specs.Prelude.{◌≡◌, ◌+◌, ◌*◌, ◌≤◌, length};
ghost use Rattle.ground.specs.Numbered.{number, reply_of};
ghost use Rattle.block_reader.specs.Reading.{block_reply, no_block, block_of, codes_of, tails_of, block_answer, codes_after, tails_after};

use frame::{NO_RECORD, Reading};
use ground::replies::{DONE, Reply};

// What reading a block answers: 0 with the place behind it and what each frame reads as, 14 among them for a frame without data; or the reply alone.
// The C interface needs its shape: g719_read_block answers boundary::Block, which has the same fields.
#[repr(C)]
#[derive(Clone, Copy)]
pub struct Block {
    pub reply: u8,
    pub next: usize,
    pub frames: [Reading; 8],
}

// No reading: all 0.
const NO_READING: Reading = Reading {
    reply: 0,
    next: 0,
    record: NO_RECORD,
};

fn refusal(reply: Reply) -> Block
    ensures { result ≡ no_block (number reply) }
{
    Block {
        reply: reply.into(),
        next: 0,
        frames: [NO_READING; 8],
    }
}

// 17 for the channels, 10 for the rooms, then the number of the first frame that is not sound; nothing is given out.
fn block_reply(src: &[u8], channels: usize, codes: usize, tails: usize) -> Result<(), Reply>
    ensures { reply_of result ≡ block_reply src.now channels codes tails }
{
    frames::room_reply(channels, codes, tails)?;
    recording::pass_block(src, channels)?;
    Ok(())
}

// Reads the frames of a block, each into its own 800 numbers and 320 bytes. Of a part that chunks_exact_mut lends a proof knows the length alone, so each
// is cut at its place.
fn take_block(src: &[u8], channels: usize, codes: &mut [u16], tails: &mut [u8]) -> Block
    requires { (channels ≤ 8) × (channels * 800 ≤ length codes.old) × (channels * 320 ≤ length tails.old) }
    ensures { (result ≡ block_of src.now channels)
        × (codes.new ≡ codes_of src.now channels codes.old)
        × (tails.new ≡ tails_of src.now channels tails.old) }
{
    let mut frames = [NO_READING; 8];
    let mut at = 0;
    for c in 0..channels {
        let a = c * 800;
        let t = c * 320;
        frames[c] = frame::read(&src[at..], &mut codes[a..a + 800], &mut tails[t..t + 320]);
        at += frames::size_at(src, at);
    }
    Block {
        reply: DONE,
        next: at,
        frames,
    }
}

// Reads the block at the start of a slice: 17, 10, then the first frame that is not sound with its number, 1 where no byte is and 4 where a later frame
// is missing. Only 0 changes the lent numbers and bytes, and those of frames with data alone.
pub fn read_block(src: &[u8], channels: u8, codes: &mut [u16], tails: &mut [u8]) -> Block
    ensures { (result ≡ block_answer (block_reply src.now channels (length codes.old) (length tails.old)) src.now channels)
        × (codes.new ≡ codes_after (block_reply src.now channels (length codes.old) (length tails.old)) src.now channels codes.old)
        × (tails.new ≡ tails_after (block_reply src.now channels (length codes.old) (length tails.old)) src.now channels tails.old) }
{
    let n = usize::from(channels);
    match block_reply(src, n, codes.len(), tails.len()) {
        Ok(()) => take_block(src, n, codes, tails),
        Err(reply) => refusal(reply),
    }
}
