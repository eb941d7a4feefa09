// The stored frame (01, Stored frame; 7.6, 7.8, 8.3, A.4.1): the record and its reading.

#![tactic(auto)]

ghost use Rattle.std.specs.Prelude.{◌≡◌, ◌+◌, ◌*◌, ◌≤◌, length};
ghost use Rattle.ground.specs.Numbered.{number};
ghost use Rattle.bits.specs.Bits.{view, bit};
ghost use Rattle.prefix.specs.Sizes.{mode_bytes};
ghost use Rattle.prefix.specs.Prefix.{prefix_of};
ghost use Rattle.frame.specs.Answers.{flags_for, flags_of, stopped_at, started, read_body, read_answer, reading_of, codes_after, tail_after};
ghost use Rattle.frame.specs.Inner.{NormsRead, BodyRead, FrameRead, body_reading, data_reading};

use ground::replies::{DONE, Reply};
use kinds::Flags;
use norms::NormPart;
use prefix::{Length, Prefix};

// A frame's record, beside 800 codes and 320 tail bytes.
#[repr(C)]
#[derive(Clone, Copy, Debug, PartialEq, Eq)]
pub struct Record {
    pub mode: u8,
    pub transient: bool,
    pub flag_l: bool,
    pub flag_n: bool,
    pub flag_c: bool,
    pub norms: [u8; 44],
    pub noise: u8,
    pub tail_bits: u16,
}

impl From<Record> for Flags {
    ghost from_gives = { λ r f. f ≡ flags_for r };

    fn from(r: Record) -> Flags {
        Flags {
            transient: r.transient,
            l: r.flag_l,
            n: r.flag_n,
            c: r.flag_c,
        }
    }
}

// What reading answers: 0 with the next place and the record; 14 with the next place; else the reply alone.
// The fields are those that boundary makes C's struct of, and promises' Numbered and Trips speak of them: 14 has a next place and no record.
#[repr(C)]
#[derive(Clone, Copy, Debug, PartialEq, Eq)]
pub struct Reading {
    pub reply: u8,
    pub next: usize,
    pub record: Record,
}

// What stands where there is no record.
pub const NO_RECORD: Record = Record {
    mode: 0,
    transient: false,
    flag_l: false,
    flag_n: false,
    flag_c: false,
    norms: [0; 44],
    noise: 0,
    tail_bits: 0,
};

fn flag_at(s: &[u8], i: usize) -> bool
    ensures { result ≡ bit s.now i }
{
    bits::read_bits(s, i, 1) == 1
}

fn read_flags(s: &[u8]) -> Flags
    ensures { result ≡ flags_of (view s.now 0 4) }
{
    Flags {
        transient: flag_at(s, 0),
        l: flag_at(s, 1),
        n: flag_at(s, 2),
        c: flag_at(s, 3),
    }
}

// A reply without a record.
fn refusal(reply: Reply, next: usize) -> Reading
    ensures { result ≡ stopped_at (number reply) next }
{
    Reading {
        reply: reply.into(),
        next,
        record: NO_RECORD,
    }
}

// The codes and the noise of a body behind its part of norms. The codes go into `found`, up to the first refusal.
fn read_rest(
    s: &[u8],
    mode: u8,
    flags: Flags,
    part: NormPart,
    found: &mut [u16],
) -> Result<Record, Reply>
    requires norms_read { NormsRead s.now part.norms part.next × (flags ≡ flags_of (view s.now 0 4)) }
    requires s_len_bound { (length s.now ≤ 320) × (length s.now ≡ mode_bytes mode) × (length found.old ≡ 800) }
    ensures { BodyRead s.now (read_body mode s.now) (body_reading (length s.now) result) found.new }
{
    let norms = part.norms;
    let at = part.next;
    let end = s.len() * 8;
    let k = kinds::noise_bits(flags.transient);
    let kinds = kinds::kinds_for(flags, norms, at, end);
    let next = runs::read_words(s, at, end - k, &kinds, found)?;
    let noise = bits::read_bits(s, next, k);
    Ok(Record {
        mode,
        transient: flags.transient,
        flag_l: flags.l,
        flag_n: flags.n,
        flag_c: flags.c,
        norms,
        noise: noise as u8,
        tail_bits: (end - (next + k)) as u16,
    })
}

// A body of a mode.
fn read_body(s: &[u8], mode: u8, found: &mut [u16]) -> Result<Record, Reply>
    requires { (80 ≤ length s.now) × (length s.now ≤ 320) × (length s.now ≡ mode_bytes mode) × (length found.old ≡ 800) }
    ensures { BodyRead s.now (read_body mode s.now) (body_reading (length s.now) result) found.new }
{
    let flags = read_flags(s);
    let part = norms::read_norms(s, 4, s.len() * 8, flags.transient, flags.n)?;
    read_rest(s, mode, flags, part, found)
}

// A frame with data, as its prefix says.
fn read_data(src: &[u8], field: Length, found: &mut [u16]) -> Result<Reading, Reply>
    requires { (Prefix.Data field ≡ prefix_of src.now) × (length found.old ≡ 800) }
    ensures { FrameRead src.now (started (Prefix.Data field) src.now) (data_reading result) found.new }
{
    let n = usize::from(field.bytes());
    if src.len() <= n {
        return Err(Reply::Cut);
    }
    let next = n + 1;
    let body = &src[1..next];
    // The field of a frame with data names a mode, so this refusal never comes.
    let mode = field.mode().ok_or(Reply::Reserved)?;
    let record = read_body(body, mode.0, found)?;
    Ok(Reading {
        reply: DONE,
        next,
        record,
    })
}

// The frame at the start of a slice, its codes into `found`: 1, 2, 3, 14, 4, 5, then 6 or 7, first met.
fn read_frame(src: &[u8], found: &mut [u16]) -> Reading
    requires { length found.old ≡ 800 }
    ensures { FrameRead src.now (started (prefix_of src.now) src.now) result found.new }
{
    match prefix::read_prefix(src) {
        Prefix::NoByte => refusal(Reply::NoByte, 0),
        Prefix::Marked => refusal(Reply::Marked, 0),
        Prefix::Reserved => refusal(Reply::Reserved, 0),
        Prefix::NoData => refusal(Reply::NoData, 1),
        Prefix::Data(field) => match read_data(src, field, found) {
            Ok(reading) => reading,
            Err(reply) => refusal(reply, 0),
        },
    }
}

// Reads the stored frame at the start of a slice and answers as `read` with enough room; its codes and its tail are read, but not given out.
pub fn read_record(src: &[u8]) -> Reading
    ensures { result ≡ reading_of (started (prefix_of src.now) src.now) }
{
    // An empty frame needs no room for codes, and a recording may have many.
    if let Prefix::NoData = prefix::read_prefix(src) {
        return refusal(Reply::NoData, 1);
    }
    let mut found = [0u16; 800];
    read_frame(src, &mut found)
}

// Reads the stored frame at the start of a slice: 10, 1, 2, 3, 14, 4, 5, then 6 or 7, first met. Only 0 changes the lent numbers and bytes.
pub fn read(src: &[u8], codes: &mut [u16], tail: &mut [u8]) -> Reading
    ensures { (result ≡ reading_of (read_answer src.now (length codes.old) (length tail.old)))
        × (codes.new ≡ codes_after codes.old (read_answer src.now (length codes.old) (length tail.old)))
        × (tail.new ≡ tail_after tail.old (read_answer src.now (length codes.old) (length tail.old))) }
{
    if codes.len() < 800 || tail.len() < 320 {
        return refusal(Reply::ShortRoom, 0);
    }
    let mut found = [0u16; 800];
    let r = read_frame(src, &mut found);
    if r.reply == DONE {
        let next = r.next;
        let at = (next - 1) * 8 - usize::from(r.record.tail_bits);
        codes[..800].copy_from_slice(&found);
        tails::fill_tail(&src[1..next], at, tail);
    }
    r
}
