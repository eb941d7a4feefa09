// What crosses to C and back: flags as numbers, answers as structs with the reply first.

#![tactic(auto)]

ghost use Rattle.std.specs.Prelude.{◌≡◌, ℕ, ◌<◌, slice_index_or};
ghost use Rattle.ground.specs.Numbered as replies;
ghost use Rattle.norms.specs.Answers.{answered};
ghost use Rattle.boundary.specs.PrefixStructs.{prefix_numbers, byte_numbers};
ghost use Rattle.boundary.specs.Flags.{flag_in, record_in, record_out, reading_out, choice_out, block_out, given_in, records_in};

use ground::replies::{DONE, Reply};

// What a prefix byte says: the field L, the body bytes and the next place. C reads this struct: g719_read_prefix gives it.
#[repr(C)]
#[derive(Clone, Copy)]
pub struct Prefix {
    pub reply: u8,
    pub length: u8,
    pub bytes: u16,
    pub next: u8,
}

// The prefix byte of a mode. C reads this struct: g719_write_prefix gives it.
#[repr(C)]
#[derive(Clone, Copy)]
pub struct Byte {
    pub reply: u8,
    pub byte: u8,
}

// A frame's record as C has it: each flag is a number, any but 0 being true. C writes this struct for g719_write, and reads it in a reading.
#[repr(C)]
#[derive(Clone, Copy)]
pub struct Record {
    pub mode: u8,
    pub transient: u8,
    pub flag_l: u8,
    pub flag_n: u8,
    pub flag_c: u8,
    pub norms: [u8; 44],
    pub noise: u8,
    pub tail_bits: u16,
}

// What reading answers, as C has it: C reads this struct of g719_read, the reply first.
#[repr(C)]
#[derive(Clone, Copy)]
pub struct Reading {
    pub reply: u8,
    pub next: usize,
    pub record: Record,
}

// What reading a block answers, as C has it: C reads this struct of g719_read_block, the reply first.
#[repr(C)]
#[derive(Clone, Copy)]
pub struct Block {
    pub reply: u8,
    pub next: usize,
    pub frames: [Reading; 8],
}

// What a block is written from, as C has it: an empty frame where the number is not 0. C writes these two arrays for g719_write_block.
#[repr(C)]
#[derive(Clone, Copy)]
pub struct Records {
    pub at: [Record; 8],
    pub empty: [u8; 8],
}

// What a choice answers, as C has it: the flag is 0 or 1. C reads this struct of g719_choose_flag_n, the reply first.
#[repr(C)]
#[derive(Clone, Copy)]
pub struct Choice {
    pub reply: u8,
    pub flag: u8,
}

// Any number but 0 is true.
#[tactic(auto, unfolding(crate::specs::Flags::flag_in))]
pub fn flag_in(number: u8) -> bool
    ensures { result ≡ flag_in number }
{
    number != 0
}

// Eight of what a function gives of each of eight. `[T; 8]::map` moves them through iterators of its own: g719_read_block then takes 9,067 bytes of stack, and
// the rule is 8 KiB a call.
fn each<A: Copy, B: Copy, F: Fn(A) -> B>(list: &[A; 8], made: F) -> [B; 8]
    requires { F.IsAlwaysCallable made }
    ensures { (k : ℕ) (d : A) (e : B) → k < 8 → F.post made (slice_index_or list.now k d) (slice_index_or result k e) }
{
    let mut out = [made(list[0]); 8];
    for (k, place) in out.iter_mut().enumerate() {
        *place = made(list[k]);
    }
    out
}

impl From<Record> for frame::Record {
    ghost from_gives = { λ r made. made ≡ record_in r };

    #[tactic(auto, unfolding(crate::specs::Flags::record_in))]
    fn from(r: Record) -> frame::Record {
        let norms = r.norms;
        frame::Record {
            mode: r.mode,
            transient: flag_in(r.transient),
            flag_l: flag_in(r.flag_l),
            flag_n: flag_in(r.flag_n),
            flag_c: flag_in(r.flag_c),
            norms,
            noise: r.noise,
            tail_bits: r.tail_bits,
        }
    }
}

impl From<frame::Record> for Record {
    ghost from_gives = { λ r made. made ≡ record_out r };

    #[tactic(auto, unfolding(crate::specs::Flags::record_out, crate::specs::Flags::flag_out))]
    fn from(r: frame::Record) -> Record {
        let norms = r.norms;
        Record {
            mode: r.mode,
            transient: u8::from(r.transient),
            flag_l: u8::from(r.flag_l),
            flag_n: u8::from(r.flag_n),
            flag_c: u8::from(r.flag_c),
            norms,
            noise: r.noise,
            tail_bits: r.tail_bits,
        }
    }
}

impl From<frame::Reading> for Reading {
    ghost from_gives = { λ r made. made ≡ reading_out r };

    #[tactic(auto, unfolding(crate::specs::Flags::reading_out))]
    fn from(r: frame::Reading) -> Reading {
        Reading {
            reply: r.reply,
            next: r.next,
            record: r.record.into(),
        }
    }
}

impl From<block_reader::Block> for Block {
    ghost from_gives = { λ b made. made ≡ block_out b };

    #[tactic(auto, unfolding(crate::specs::Flags::block_out))]
    fn from(b: block_reader::Block) -> Block {
        Block {
            reply: b.reply,
            next: b.next,
            frames: each(&b.frames, Reading::from),
        }
    }
}

// What a channel's frame is written from: none where the number says that it is an empty one.
#[tactic(auto, unfolding(crate::specs::Flags::given_in))]
fn given_in(record: Record, empty: u8) -> Option<frame::Record>
    ensures { result ≡ given_in «record» empty }
{
    if flag_in(empty) {
        None
    } else {
        Some(record.into())
    }
}

impl From<Records> for block_writer::Records {
    ghost from_gives = { λ r made. made ≡ records_in r };

    fn from(r: Records) -> block_writer::Records {
        let mut at = [None; 8];
        for c in 0..8 {
            at[c] = given_in(r.at[c], r.empty[c]);
        }
        block_writer::Records { at }
    }
}

impl From<Result<bool, Reply>> for Choice {
    ghost from_gives = { λ c made. made ≡ choice_out (answered c) };

    #[tactic(auto, unfolding(crate::specs::Flags::choice_out, crate::specs::Flags::flag_out))]
    fn from(c: Result<bool, Reply>) -> Choice {
        match c {
            Ok(flag) => Choice {
                reply: DONE,
                flag: u8::from(flag),
            },
            Err(reply) => Choice {
                reply: reply.into(),
                flag: 0,
            },
        }
    }
}

// A prefix byte without a body; only for no data is there a next place.
fn no_body(reply: Reply, next: u8) -> Prefix
    ensures { result ≡ record { reply = replies.number reply; length = 0; bytes = 0; next = next } }
{
    Prefix {
        reply: reply.into(),
        length: 0,
        bytes: 0,
        next,
    }
}

// The cases of a prefix byte as 01's numbers.
impl From<prefix::Prefix> for Prefix {
    ghost from_gives = { λ p made. made ≡ prefix_numbers p };

    #[tactic(auto, unfolding(crate::specs::PrefixStructs::prefix_numbers))]
    fn from(p: prefix::Prefix) -> Prefix {
        match p {
            prefix::Prefix::Data(field) => Prefix {
                reply: DONE,
                length: field.0,
                bytes: field.bytes(),
                next: 1,
            },
            prefix::Prefix::NoData => no_body(Reply::NoData, 1),
            prefix::Prefix::NoByte => no_body(Reply::NoByte, 0),
            prefix::Prefix::Marked => no_body(Reply::Marked, 0),
            prefix::Prefix::Reserved => no_body(Reply::Reserved, 0),
        }
    }
}

// The cases of a made byte as 01's numbers.
impl From<Result<u8, Reply>> for Byte {
    ghost from_gives = { λ b made. made ≡ byte_numbers b };

    #[tactic(auto, unfolding(crate::specs::PrefixStructs::byte_numbers))]
    fn from(b: Result<u8, Reply>) -> Byte {
        match b {
            Ok(byte) => Byte { reply: DONE, byte },
            Err(reply) => Byte {
                reply: reply.into(),
                byte: 0,
            },
        }
    }
}
