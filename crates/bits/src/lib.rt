// Bits of lent bytes, top bit first: n bits at a bit place, read and written, by bytes and never bit by bit.
// In specs/: codings of numbers as words, and codecs. Their two laws are in proofs/Laws.

#![tactic(auto)]

ghost use Rattle.std.specs.Prelude.{◌≡◌, ℕ, ◌+◌, ◌*◌, ◌/◌, ◌%◌, ◌<◌, min, get_or, set};
ghost use Rattle.bits.specs.Bits.{val, view, word, laid};
ghost use Rattle.bits.specs.Codings.{reply_of};
ghost use Rattle.ground.specs.Numbered.{number};

use ground::replies::Reply;

// Why a value cannot be read off the front of some bits.
#[derive(Clone, Copy, Debug, PartialEq, Eq)]
pub enum Refusal {
    // A norm index outside 0 to 39.
    Outside,
    // The word that the 5-bit column lacks.
    Missing,
    // The bits end within the word.
    Past,
}

// 01's reply for a refusal.
impl From<Refusal> for Reply {
    ghost from_gives = { λ refusal reply. number reply ≡ reply_of refusal };

    fn from(refusal: Refusal) -> Reply {
        match refusal {
            Refusal::Outside => Reply::NormOutside,
            Refusal::Missing => Reply::NoWord,
            Refusal::Past => Reply::PastBudget,
        }
    }
}

// The byte at place i, 0 past the end.
fn byte_at(s: &[u8], i: usize) -> usize
    ensures { (result ≡ get_or s.now i 0) × (result < 256) }
{
    usize::from(s.get(i).copied().unwrap_or(0))
}

// The byte x at place i; past the end nothing changes.
fn set_byte(s: &mut [u8], i: usize, x: u8)
    ensures { s.new ≡ set s.old i x }
{
    if i < s.len() {
        s[i] = x;
    }
}

// The three bytes from place i on as one number.
fn window(s: &[u8], i: usize) -> usize
    requires { i < 4611686018427387904 }
    ensures { result ≡ val (view s.now (i * 8) 24) }
{
    if i + 2 < s.len() {
        return usize::from(s[i]) * 65536 + usize::from(s[i + 1]) * 256 + usize::from(s[i + 2]);
    }
    byte_at(s, i) * 65536 + byte_at(s, i + 1) * 256 + byte_at(s, i + 2)
}

// The last 24 bits of x as three bytes from place i on; past the end nothing changes.
fn set_window(s: &mut [u8], i: usize, x: usize)
    requires { i < 4611686018427387904 }
    ensures { s.new ≡ set (set (set s.old i (x / 65536 % 256)) (i + 1) (x / 256 % 256)) (i + 2) (x % 256) }
{
    if i + 2 < s.len() {
        s[i] = (x / 65536 % 256) as u8;
        s[i + 1] = (x / 256 % 256) as u8;
        s[i + 2] = (x % 256) as u8;
        return;
    }
    set_byte(s, i, (x / 65536 % 256) as u8);
    set_byte(s, i + 1, (x / 256 % 256) as u8);
    set_byte(s, i + 2, (x % 256) as u8);
}

// The n bits at a place as a number, of n over 16 the first 16; each bit past the end is 0.
pub fn read_bits(s: &[u8], place: usize, n: usize) -> usize
    ensures { result ≡ val (view s.now place (min n 16)) }
{
    let n = n.min(16);
    let w = window(s, place / 8);
    (w >> (24 - place % 8 - n)) % (1 << n)
}

// The last n bits of v at a place, of n over 16 the last 16; a bit past the end is dropped.
pub fn write_bits(s: &mut [u8], place: usize, n: usize, v: usize)
    ensures { s.new ≡ laid s.old place (word (min n 16) v) }
{
    let i = place / 8;
    let n = n.min(16);
    let h = 24 - place % 8;
    let m = h - n;
    let w = window(s, i);
    let x = ((w >> h) << h) + ((v % (1 << n)) << m) + w % (1 << m);
    set_window(s, i, x);
}
