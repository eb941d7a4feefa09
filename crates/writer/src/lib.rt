// The writer of stored frames (01, Stored frame; 7.6, 7.8): rooms, noise and tail tried, and the frame laid into a lent output.

#![tactic(auto)]

ghost use Rattle.std.specs.Prelude.{◌≡◌, length};
ghost use Rattle.ground.specs.Numbered.{reply_of};
ghost use Rattle.ground.specs.Refusals.{first};
ghost use Rattle.bits.specs.Bits.{laid, word};
ghost use Rattle.writer.specs.Noise.{noise_fits};
ghost use Rattle.writer.specs.Empty.{empty_reply, empty_after};
ghost use Rattle.layout.specs.Parts.{flag_bits, kinds_for};
ghost use Rattle.writer.specs.Writes.{room_causes, tail_causes, write_reply, writing_of, answered, out_after};
ghost use Rattle.writer.specs.Bodies.{body_bits};

use frame::Record;
use ground::replies::{DONE, Reply};
use prefix::Mode;

// What writing answers: 0 with the next place, or the reply alone.
// C reads this struct: g719_write and g719_write_empty hand it on.
#[repr(C)]
#[derive(Clone, Copy, Debug, PartialEq, Eq)]
pub struct Writing {
    pub reply: u8,
    pub next: usize,
}

impl From<Result<usize, Reply>> for Writing {
    ghost from_gives = { λ outcome w. w ≡ answered outcome };

    fn from(outcome: Result<usize, Reply>) -> Writing {
        match outcome {
            Ok(next) => Writing { reply: DONE, next },
            Err(reply) => Writing {
                reply: reply.into(),
                next: 0,
            },
        }
    }
}

// Whether the noise is one that the kind of frame has: 0 to 3, and 0 in a transient frame.
#[tactic(auto, unfolding(crate::specs::Noise::noise_fits))]
fn is_quiet(transient: bool, noise: u8) -> bool
    ensures { result ≡ noise_fits transient noise }
{
    if transient { noise == 0 } else { noise < 4 }
}

// Writes an empty frame, one byte 00; no room for it is 10.
pub fn write_empty(out: &mut [u8]) -> Writing
    ensures { (result ≡ empty_reply (length out.old)) × (out.new ≡ empty_after out.old) }
{
    if out.is_empty() {
        return Writing::from(Err(Reply::ShortRoom));
    }
    out[0] = 0;
    Writing::from(Ok(1))
}

// 8 for the mode, 10 for the three rooms, 8 for the noise.
fn room_reply(r: Record, codes: usize, tail: usize, room: usize) -> Result<(), Reply>
    ensures { reply_of result ≡ first (room_causes r codes tail room) }
{
    if 19 < r.mode {
        return Err(Reply::OutOfRange);
    }
    if codes < 800 || tail < 320 || room <= usize::from(Mode(r.mode).bytes()) {
        return Err(Reply::ShortRoom);
    }
    if !is_quiet(r.transient, r.noise) {
        return Err(Reply::OutOfRange);
    }
    Ok(())
}

// 13 where so many bits are not what is left for the tail, or its padding is not zeros.
fn tail_reply(tail: &[u8], left: u16, count: u16) -> Result<(), Reply>
    ensures { reply_of result ≡ first (tail_causes tail.now left count) }
{
    if count == left && tails::all_clear(tail, usize::from(count), 2560) {
        Ok(())
    } else {
        Err(Reply::WrongTail)
    }
}

// What `write` would answer, with so many bytes of room, without writing: 8 for the mode, 10, the other causes of 8, 9, 12, 7, 13.
pub fn write_reply(r: Record, codes: &[u16], tail: &[u8], room: usize) -> Result<(), Reply>
    ensures { reply_of result ≡ write_reply r codes.now tail.now room }
{
    room_reply(r, codes.len(), tail.len(), room)?;
    let parts = layout::parts_for(r, codes)?;
    tail_reply(tail, parts.tail_bits, r.tail_bits)
}

// The four flags as a number, the first at the top.
fn flag_number(r: Record) -> usize
    ensures { word 4 result ≡ flag_bits r }
{
    usize::from(r.transient) * 8
        + usize::from(r.flag_l) * 4
        + usize::from(r.flag_n) * 2
        + usize::from(r.flag_c)
}

// Lays the body from bit 8 on: flags, norms, codes, noise, tail.
fn write_body(r: Record, kinds: &[u8], numbers: &[u16], tail: &[u8], out: &mut [u8])
    requires { (kinds.now ≡ kinds_for r) × (length kinds.now ≡ 800) × (length numbers.now ≡ 800) }
    ensures { out.new ≡ laid out.old 8 (body_bits r numbers.now tail.now) }
{
    bits::write_bits(out, 8, 4, flag_number(r));
    let codes = 12 + norms::write_norms(out, 12, r.transient, r.flag_n, r.norms);
    let noise = codes + runs::write_words(out, codes, kinds, numbers);
    let k = kinds::noise_bits(r.transient);
    bits::write_bits(out, noise, k, usize::from(r.noise));
    tails::copy_bits(tail, usize::from(r.tail_bits), out, noise + k);
}

// Lays a record's frame into the output and gives the next place: 8 for the mode, 10, the other causes of 8, 9, 12, 7, 13.
fn write_frame(r: Record, codes: &[u16], tail: &[u8], out: &mut [u8]) -> Result<usize, Reply>
    ensures { (answered result ≡ writing_of (write_reply r codes.now tail.now (length out.old)) r.mode)
        × (out.new ≡ out_after (write_reply r codes.now tail.now (length out.old)) r codes.now tail.now out.old) }
{
    room_reply(r, codes.len(), tail.len(), out.len())?;
    layout::start_reply(r, codes.len())?;
    let plan = layout::plan_of(r);
    let numbers = &codes[..800];
    let parts = layout::parts_in(plan.budget, plan.rates, &plan.kinds, numbers)?;
    tail_reply(tail, parts.tail_bits, r.tail_bits)?;
    let mode = Mode(r.mode);
    let n = usize::from(mode.bytes());
    // The mode is one of 0 to 19 here, so this refusal never comes.
    out[0] = prefix::write_prefix(mode)?;
    write_body(r, &plan.kinds, numbers, tail, out);
    Ok(n + 1)
}

// Writes a record as a stored frame: 8 for the mode, 10, the other causes of 8, 9, 12, 7, 13. Only 0 changes the output, and exactly frame + 1 bytes.
pub fn write(r: Record, codes: &[u16], tail: &[u8], out: &mut [u8]) -> Writing
    ensures { (result ≡ writing_of (write_reply r codes.now tail.now (length out.old)) r.mode)
        × (out.new ≡ out_after (write_reply r codes.now tail.now (length out.old)) r codes.now tail.now out.old) }
{
    Writing::from(write_frame(r, codes, tail, out))
}
