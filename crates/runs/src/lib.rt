// Words one after the other: a run of kinds, read into a lent slice, written from one, and counted.

#![tactic(auto)]

ghost use Rattle.std.specs.Prelude.{◌≡◌, map, ◌+◌, ◌-◌, ◌*◌, ◌≤◌, ◌<◌, length};
ghost use Rattle.bits.specs.Bits.{laid};
ghost use Rattle.bits.specs.Codecs.{write_all};
ghost use Rattle.words.specs.Tables.{coding};
ghost use Rattle.runs.specs.Runs.{ran, run_at, read_some, over};

use bits::Refusal;

// Reads the words of the kinds, all before the end; their numbers go into out, up to the first refusal. Gives the next place.
pub fn read_words(
    s: &[u8],
    at: usize,
    end: usize,
    kinds: &[u8],
    out: &mut [u16],
) -> Result<usize, Refusal>
    requires { length kinds.now ≤ length out.old }
    ensures { (result ≡ ran at (end - at) (run_at s.now at end kinds.now))
        × (out.new ≡ over (read_some s.now at end kinds.now) out.old) }
{
    let mut p = at;
    for (i, kind) in kinds.iter().enumerate() {
        let word = words::read_word(s, p, end, *kind)?;
        out[i] = word.number;
        p = word.next;
    }
    Ok(p)
}

// Writes the words of the kinds for the numbers, and gives how many bits they are.
pub fn write_words(s: &mut [u8], at: usize, kinds: &[u8], numbers: &[u16]) -> usize
    requires { (length kinds.now ≡ length numbers.now) × (at + 16 * length kinds.now < 18446744073709551616) }
    ensures { (result ≡ length (write_all (map coding kinds.now) numbers.now))
        × (s.new ≡ laid s.old at (write_all (map coding kinds.now) numbers.now)) }
{
    let mut n = 0;
    for (i, kind) in kinds.iter().enumerate() {
        n += words::write_word(s, at + n, *kind, numbers[i]);
    }
    n
}

// How many bits the words of the kinds have for the numbers.
pub fn run_bits(kinds: &[u8], numbers: &[u16]) -> usize
    requires { (length kinds.now ≡ length numbers.now) × (16 * length kinds.now < 18446744073709551616) }
    ensures { result ≡ length (write_all (map coding kinds.now) numbers.now) }
{
    let mut n = 0;
    for (i, kind) in kinds.iter().enumerate() {
        n += words::word_bits(*kind, numbers[i]);
    }
    n
}
