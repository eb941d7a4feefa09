// The FlagC choice (01, Coefficient codes): 1 exactly when words cost less than fixed codes over the bands at rates 2 to 5.

#![tactic(auto)]

ghost use Rattle.std.specs.Prelude.{◌≡◌, ◌≤◌, length};
ghost use Rattle.norms.specs.Answers.{answered};
ghost use Rattle.choice.specs.Choice.{as_word, as_fixed, plain, choice_of};
ghost use Rattle.choice.specs.Inner.{cheaper};

use frame::Record;
use ground::replies::Reply;

// What a number costs as a word of Table 20 where the kind is 2 to 5, and nothing elsewhere.
#[tactic(auto, using(crate::proofs::Laws::Choice::word_yes, crate::proofs::Laws::Choice::word_low, crate::proofs::Laws::Choice::word_high))]
fn as_word(kind: u8, v: u16) -> usize
    ensures { (result ≡ as_word kind v) × (result ≤ 16) }
{
    match kind {
        2..=5 => words::word_bits(kind + words::CODE_WORDS, v),
        _ => 0,
    }
}

// What a fixed code costs there.
#[tactic(auto, using(crate::proofs::Laws::Choice::fixed_yes, crate::proofs::Laws::Choice::fixed_low, crate::proofs::Laws::Choice::fixed_high))]
fn as_fixed(kind: u8) -> usize
    ensures { (result ≡ as_fixed kind) × (result ≤ 16) }
{
    match kind {
        2..=5 => usize::from(kind),
        _ => 0,
    }
}

// Whether words cost less than fixed codes.
fn words_cheaper(kinds: &[u8], numbers: &[u16]) -> bool
    requires { (length kinds.now ≡ length numbers.now) × (length kinds.now ≤ 800) }
    ensures { result ≡ cheaper kinds.now numbers.now }
{
    let mut words: usize = 0;
    let mut fixed: usize = 0;
    for (kind, v) in kinds.iter().zip(numbers) {
        words += as_word(*kind, *v);
        fixed += as_fixed(*kind);
    }
    words < fixed
}

// The record with FlagC 0.
fn plain(r: Record) -> Record
    ensures { result ≡ plain r }
{
    Record { flag_c: false, ..r }
}

// Chooses FlagC for a record and its codes: 8 for the mode, 10, the other causes of 8, 9, 12; else whether words cost less than fixed codes over the
// bands at rates 2 to 5. Noise, tail and the record's own FlagC are not looked at.
pub fn choose_flag_c(r: Record, codes: &[u16]) -> Result<bool, Reply>
    ensures { answered result ≡ choice_of r codes.now }
{
    layout::start_reply(r, codes.len())?;
    let plan = layout::plan_of(plain(r));
    let numbers = &codes[..800];
    if !layout::all_fit(&plan.kinds, numbers) {
        return Err(Reply::WideCode);
    }
    Ok(words_cheaper(&plan.kinds, numbers))
}
