// Words of short kinds, which need no table and have at most eight bits: as many bits as the kind says, and norm words. They are read and written two
// at a time, off one look at the bits.

#![tactic(auto)]

ghost use Rattle.std.specs.Prelude.{◌≡◌, List, ◌++◌, map, ℕ, ◌+◌, ◌-◌, ◌*◌, ◌%◌, ◌≤◌, ◌<◌, T, length, get_or};
ghost use Rattle.bits.specs.Bits.{word, laid};
ghost use Rattle.bits.specs.Codings.{word_of};
ghost use Rattle.bits.specs.Codecs.{write_all};
ghost use Rattle.words.specs.Tables.{coding};
ghost use Rattle.runs.specs.Runs.{ran, run_at, read_some, over};
ghost use Rattle.short_words.specs.Short.{short, FoundIn, pair_at};

use bits::Refusal;
use norm_words::{Found, Spelling};
use words::FIRST_WORDS;

// The word of a short kind with which eight bits begin.
fn short_word(eight: usize, kind: u8) -> Found
    requires { (eight < 256) × T (short kind) }
    ensures { FoundIn eight kind result }
{
    if kind < FIRST_WORDS {
        return Found {
            number: eight >> (8 - kind),
            bits: usize::from(kind),
        };
    }
    norm_words::word_in(eight / 2)
}

// The numbers of two words, one behind the other, and the next place.
#[derive(Clone, Copy)]
struct Pair {
    first: u16,
    second: u16,
    next: usize,
}

// The words of two short kinds at a place, off one look at its bits, where both end before the end.
fn read_pair(s: &[u8], at: usize, end: usize, first: u8, second: u8) -> Option<Pair>
    requires { T (short first) × T (short second) }
    ensures { result ≡ pair_at s.now at end first second }
{
    let k = bits::read_bits(s, at, 16);
    let a = short_word(k / 256, first);
    let n = a.bits;
    let b = short_word((k >> (8 - n)) % 256, second);
    let bits = n + b.bits;
    if end.saturating_sub(at) < bits {
        return None;
    }
    Some(Pair {
        first: a.number as u16,
        second: b.number as u16,
        next: at + bits,
    })
}

// The word of a short kind for a number; no bits where it has none.
fn short_spelling(kind: u8, v: u16) -> Spelling
    requires { T (short kind) }
    ensures { (word result.bits result.value ≡ word_of (coding kind) v) × (result.bits ≤ 8) × (result.value < 65536) }
{
    let v = usize::from(v);
    if kind < FIRST_WORDS {
        return Spelling {
            bits: usize::from(kind),
            value: v,
        };
    }
    norm_words::spelling_of(v)
}

// Writes the words of two short kinds for two numbers, one behind the other and at once, and gives their length.
fn write_pair(s: &mut [u8], at: usize, first: u8, a: u16, second: u8, b: u16) -> usize
    requires { T (short first) × T (short second) }
    ensures { (result ≡ length (word_of (coding first) a ++ word_of (coding second) b))
        × (s.new ≡ laid s.old at (word_of (coding first) a ++ word_of (coding second) b)) }
{
    let x = short_spelling(first, a);
    let y = short_spelling(second, b);
    let m = y.bits;
    let n = x.bits + m;
    bits::write_bits(s, at, n, (x.value << m) + y.value % (1 << m));
    n
}

// Reads the words of short kinds, two at a time where both lie before the end, and one by one from there on.
pub fn read_short_words(
    s: &[u8],
    at: usize,
    end: usize,
    kinds: &[u8],
    out: &mut [u16],
) -> Result<usize, Refusal>
    requires { (length kinds.now ≤ length out.old) × ((i : ℕ) → i < length kinds.now → T (short (get_or kinds.now i 0))) }
    ensures { (result ≡ ran at (end - at) (run_at s.now at end kinds.now))
        × (out.new ≡ over (read_some s.now at end kinds.now) out.old) }
{
    // By index: two kinds go to two places of out, and what is left of both slices is a run.
    let mut p = at;
    let mut done = 0;
    for i in 0..kinds.len() / 2 {
        let Some(two) = read_pair(s, p, end, kinds[2 * i], kinds[2 * i + 1]) else {
            break;
        };
        out[2 * i] = two.first;
        out[2 * i + 1] = two.second;
        p = two.next;
        done = 2 * i + 2;
    }
    runs::read_words(s, p, end, &kinds[done..], &mut out[done..])
}

// Writes the words of an even count of short kinds, two at a time.
pub fn write_short_words(s: &mut [u8], at: usize, kinds: &[u8], numbers: &[u16]) -> usize
    requires { (length kinds.now ≡ length numbers.now) × (length kinds.now % 2 ≡ 0) × (at + 16 * length kinds.now < 18446744073709551616)
        × ((i : ℕ) → i < length kinds.now → T (short (get_or kinds.now i 0))) }
    ensures { (result ≡ length (write_all (map coding kinds.now) numbers.now))
        × (s.new ≡ laid s.old at (write_all (map coding kinds.now) numbers.now)) }
{
    // By index: chunks of both slices, zipped and taken apart, are no shorter.
    let mut n = 0;
    for i in 0..kinds.len() / 2 {
        n += write_pair(
            s,
            at + n,
            kinds[2 * i],
            numbers[2 * i],
            kinds[2 * i + 1],
            numbers[2 * i + 1],
        );
    }
    n
}
