// The words of a frame: as many bits as a place has, coefficient words (Table 20), read by one look-up and written by their table, and norm words
// (Table 16), which are read and written by their shape.

#![tactic(auto)]

ghost use Rattle.std.specs.Prelude.{◌≡◌, ◌+◌, ◌*◌, ◌≤◌, ◌<◌, T, length, get_or, []};
ghost use Rattle.bits.specs.Bits.{word, view, laid};
ghost use Rattle.bits.specs.Codings.{fixed, unword, word_of, fit};
ghost use Rattle.words.specs.Tables.{words, column, coding};
ghost use Rattle.words.specs.Answers.{placed, word_at};
ghost use Rattle.words.specs.Inner.{right, packed};

use bits::Refusal;
use norm_words::Spelling;

pub mod tables;

// The kind of a coefficient word is its rate, 2 to 5, more than this; lower kinds are as many bits.
pub const CODE_WORDS: u8 = 14;

// The first kind that is a word, that of rate 2.
pub const FIRST_WORDS: u8 = 16;

// The kind of a norm word.
pub const NORM_WORDS: u8 = 20;

// The number of a word, and the next place.
#[derive(Clone, Copy, Debug, PartialEq, Eq)]
pub struct Word {
    pub number: u16,
    pub next: usize,
}

// As many bits at a place, within the bits that are left.
pub fn fixed_word(s: &[u8], at: usize, left: usize, width: usize) -> Result<Word, Refusal>
    requires { (width < 16) × (at + left < 18446744073709551616) }
    ensures { result ≡ placed at left (unword (fixed width) (view s.now at left)) }
{
    if left < width {
        return Err(Refusal::Past);
    }
    Ok(Word {
        number: bits::read_bits(s, at, width) as u16,
        next: at + width,
    })
}

// The norm word at a place, within the bits that are left.
pub fn norm_word(s: &[u8], at: usize, left: usize) -> Result<Word, Refusal>
    requires { at + left < 18446744073709551616 }
    ensures { result ≡ placed at left (unword (column 4) (view s.now at left)) }
{
    let w = norm_words::word_in(bits::read_bits(s, at, 7));
    let bits = w.bits;
    if left < bits {
        return Err(Refusal::Past);
    }
    Ok(Word {
        number: w.number as u16,
        next: at + bits,
    })
}

// The entry of the look-up for seven bits of a column.
fn reading_entry(k: usize) -> usize
    requires { k < 512 }
    ensures { T (right k result) × (result < 256) }
{
    usize::from(tables::READING[k])
}

// The word of a column of Table 20 at a place, within the bits that are left.
fn column_word(s: &[u8], at: usize, left: usize, c: usize) -> Result<Word, Refusal>
    requires { (c < 4) × (at + left < 18446744073709551616) }
    ensures { result ≡ placed at left (unword (column c) (view s.now at left)) }
{
    let e = reading_entry(c * 128 + bits::read_bits(s, at, 7));
    if e == 0 {
        if left < 7 {
            return Err(Refusal::Past);
        }
        return Err(Refusal::Missing);
    }
    let n = e % 8;
    if left < n {
        return Err(Refusal::Past);
    }
    Ok(Word {
        number: (e / 8) as u16,
        next: at + n,
    })
}

// The word of a kind at a place, all of it before the end: the bits from the end on never help to finish a word.
pub fn read_word(s: &[u8], at: usize, end: usize, kind: u8) -> Result<Word, Refusal>
    ensures { result ≡ word_at s.now at end kind }
{
    if kind == 0 {
        return Ok(Word {
            number: 0,
            next: at,
        });
    }
    let left = end.saturating_sub(at);
    if kind < FIRST_WORDS {
        return fixed_word(s, at, left, usize::from(kind));
    }
    if kind < NORM_WORDS {
        return column_word(s, at, left, usize::from(kind - FIRST_WORDS));
    }
    norm_word(s, at, left)
}

// How many words a column of Table 20 has: as many as there are numbers of its rate.
fn size_of(c: usize) -> usize
    requires { c < 4 }
    ensures { (result ≡ length (words c)) × (4 ≤ result) }
{
    4 << c
}

// The word of a column as a number. A column begins after the smaller ones.
fn writing_entry(c: usize, v: usize) -> usize
    requires { (c < 4) × (v < length (words c)) }
    ensures { (result ≡ packed (get_or (words c) v [])) × (result < 65536) }
{
    usize::from(tables::WRITING[size_of(c) - 4 + v])
}

// The word of a column for a number; no bits where it has none.
fn column_spelling(c: usize, v: usize) -> Spelling
    requires { c < 4 }
    ensures { (word result.bits result.value ≡ word_of (column c) v) × (result.bits ≤ 16) }
{
    if size_of(c) <= v {
        return Spelling { bits: 0, value: 0 };
    }
    let e = writing_entry(c, v);
    Spelling {
        bits: e % 8,
        value: e / 8,
    }
}

// The word of a kind for a number; no bits where it has none.
fn word_of(kind: u8, v: u16) -> Spelling
    ensures { (word result.bits result.value ≡ word_of (coding kind) v) × (result.bits ≤ 16) }
{
    let v = usize::from(v);
    if kind < FIRST_WORDS {
        return Spelling {
            bits: usize::from(kind),
            value: v,
        };
    }
    if kind < NORM_WORDS {
        return column_spelling(usize::from(kind - FIRST_WORDS), v);
    }
    norm_words::spelling_of(v)
}

// Writes the word of a kind for a number at a place, and gives its length. A number without a word is no bits.
pub fn write_word(s: &mut [u8], at: usize, kind: u8, v: u16) -> usize
    ensures { (result ≡ length (word_of (coding kind) v)) × (s.new ≡ laid s.old at (word_of (coding kind) v)) }
{
    if kind == 0 {
        return 0;
    }
    let w = word_of(kind, v);
    bits::write_bits(s, at, w.bits, w.value);
    w.bits
}

// The length of the word of a kind for a number.
pub fn word_bits(kind: u8, v: u16) -> usize
    ensures { result ≡ length (word_of (coding kind) v) }
{
    word_of(kind, v).bits
}

// Whether a number has a word of a kind.
pub fn has_word(kind: u8, v: u16) -> bool
    ensures { result ≡ fit (coding kind) v }
{
    let v = usize::from(v);
    if kind < FIRST_WORDS {
        return v < 1 << kind;
    }
    if kind < NORM_WORDS {
        return v < size_of(usize::from(kind - FIRST_WORDS));
    }
    v < 32
}
