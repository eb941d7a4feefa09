// One-channel recordings of equal count joined (02, No. 2): one frame of each in turn, block by block. Frames are copied as stored.

#![tactic(auto)]

ghost use Rattle.std.specs.Prelude.{◌≡◌, ◌↔◌, IsTrue, EachIndex, MatchResult, slice_index, sum_by, ◌++◌, ◌+◌, ◌≤◌, ◌<◌, length, drop};
ghost use Rattle.ground.specs.Laying.{TextLaid};
ghost use Rattle.recording.specs.Walk.{most_frames};
ghost use Rattle.channels.specs.Copies.{made_copy};
ghost use Rattle.joining.specs.Joining.{recording_at, own_check, block_of, joined, check_all, join_answer, join_after, InSource};
ghost use Rattle.joining.specs.Inner.{places_at, BlocksLaid};

use channels::Copied;
use ground::replies::{DONE, Reply};

// Where the joining stands: the blocks laid, where the next frame of each recording begins in it, and where the output goes on.
#[derive(Clone, Copy)]
pub struct Progress {
    pub block: u32,
    pub places: [usize; 8],
    pub next: usize,
}

// The bytes of recordings together.
fn total(lengths: &[u32]) -> usize
    requires { length lengths.now ≤ 8 }
    ensures { result ≡ sum_by (λ bytes. bytes) lengths.now }
{
    lengths.iter().map(|bytes| *bytes as usize).sum()
}

// Recording c, behind those in front of it.
fn recording_at<'a>(src: &'a [u8], lengths: &[u32], c: usize) -> &'a [u8]
    requires { InSource src.now lengths.now × (c < length lengths.now) }
    ensures { result.now ≡ recording_at src.now lengths.now c }
{
    let start = total(&lengths[..c]);
    &src[start..start + lengths[c] as usize]
}

// Whether each count is the one.
fn are_all(counts: &[u32], one: u32) -> bool
    ensures { IsTrue result ↔ EachIndex counts.now (λ c. slice_index counts.now c ≡ one) }
{
    counts.iter().all(|count| *count == one)
}

// The common count, where each recording passes its own check save 11, in order, and then none has another count: else that check's answer, or 17.
fn check_all(src: &[u8], lengths: &[u32]) -> Result<u32, Copied>
    requires { InSource src.now lengths.now × (1 ≤ length lengths.now) }
    ensures { MatchResult result
        (λ count. made_copy 0 0 count 0 0 ≡ check_all (own_check src.now lengths.now) (length lengths.now))
        (λ answer. (answer ≡ check_all (own_check src.now lengths.now) (length lengths.now)) × (0 < answer.reply)) }
{
    let mut counts = [0; 8];
    // One index for a recording, its number and its count.
    for c in 0..lengths.len() {
        let found = recording::walk_blocks(recording_at(src, lengths, c), 1);
        if found.reply != DONE {
            return Err(channels::stopped(found, c as u8 + 1));
        }
        counts[c] = found.count;
    }
    let count = counts[0];
    if are_all(&counts[..lengths.len()], count) {
        Ok(count)
    } else {
        Err(channels::refusal(Reply::WrongChannels.into()))
    }
}

// Lays the next block: the next frame of each recording, in order.
fn join_block(src: &[u8], lengths: &[u32], progress: Progress, out: &mut [u8]) -> Progress
    requires { BlocksLaid src.now lengths.now out.old progress × (progress.block < most_frames) }
    ensures { (result.block ≡ progress.block + 1) × (result.places ≡ places_at src.now lengths.now (progress.block + 1))
        × TextLaid out.old progress.next (block_of (length lengths.now) (recording_at src.now lengths.now) progress.block) out.new result.next }
{
    let mut places = progress.places;
    let mut to = progress.next;
    // One index for a recording and its place.
    for c in 0..lengths.len() {
        let recording = recording_at(src, lengths, c);
        let p = places[c];
        let e = p + frames::size_at(recording, p);
        to = ground::bytes::put(out, to, &recording[p..e]);
        places[c] = e;
    }
    Progress {
        block: progress.block + 1,
        places,
        next: to,
    }
}

// Lays so many blocks at the front of the output.
fn join_blocks(src: &[u8], lengths: &[u32], blocks: u32, out: &mut [u8])
    requires { InSource src.now lengths.now × (blocks ≤ most_frames) × (length (joined (length lengths.now) blocks (recording_at src.now lengths.now)) ≤ length out.old) }
    ensures { out.new ≡ joined (length lengths.now) blocks (recording_at src.now lengths.now)
        ++ drop (length (joined (length lengths.now) blocks (recording_at src.now lengths.now))) out.old }
{
    let mut progress = Progress {
        block: 0,
        places: [0; 8],
        next: 0,
    };
    for _ in 0..blocks {
        progress = join_block(src, lengths, progress, out);
    }
}

// Joins one-channel recordings, one behind the other in the source with a length for each: 17 for other than 1 to 8 lengths, 10 where they go past the
// source, each recording's own check save 11, 17 for unequal counts, and last 10 for the output. Only 0 changes the output.
pub fn join(src: &[u8], lengths: &[u32], out: &mut [u8]) -> Copied
    ensures { (result ≡ join_answer src.now lengths.now (length out.old))
        × (out.new ≡ join_after src.now lengths.now out.old) }
{
    let n = lengths.len();
    if !recording::is_count(n) {
        return channels::refusal(Reply::WrongChannels.into());
    }
    let total = total(lengths);
    if src.len() < total {
        return channels::refusal(Reply::ShortRoom.into());
    }
    let count = match check_all(src, lengths) {
        Ok(count) => count,
        Err(answer) => return answer,
    };
    if out.len() < total {
        return channels::refusal(Reply::ShortRoom.into());
    }
    join_blocks(src, lengths, count, out);
    Copied {
        reply: DONE,
        which: 0,
        count,
        place: 0,
        length: total,
    }
}
