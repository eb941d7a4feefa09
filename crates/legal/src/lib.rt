// Legalising norms (7.4): the greatest norms under the given ones that can be sent.

#![tactic(auto)]

ghost use Rattle.std.specs.Prelude.{◌≡◌, ℕ, ◌+◌, ◌≤◌, min, get_or};
ghost use Rattle.legal.specs.Legal.{capped, lowered, held};
ghost use Rattle.legal.specs.Answers.{legalised};

use ground::replies::{DONE, Reply};

// What legalising answers: 0 with the legal norms in band order, or 8 with zeros. C reads this struct: g719_legalise hands it on.
#[repr(C)]
#[derive(Clone, Copy, Debug, PartialEq, Eq)]
pub struct Legal {
    pub reply: u8,
    pub norms: [u8; 44],
}

// A first index over 31 becomes 31.
#[tactic(auto, using(crate::proofs::Laws::Answers::cap_made))]
fn cap(ss: [u8; 44]) -> [u8; 44]
    ensures { result ≡ capped ss }
{
    let mut out = ss;
    out[0] = ss[0].min(31);
    out
}

// Last pair to first: an index more than 15 above its successor becomes successor + 15.
fn lower(ss: [u8; 44]) -> [u8; 44]
    requires { (k : ℕ) → get_or ss k 0 ≤ 39 }
    ensures { (result ≡ lowered ss) × ((k : ℕ) → get_or result k 0 ≤ 39) }
{
    let mut out = ss;
    for i in (0..43).rev() {
        out[i] = ss[i].min(out[i + 1] + 15);
    }
    out
}

// First to last: an index more than 16 above its predecessor becomes predecessor + 16.
fn hold(ss: [u8; 44]) -> [u8; 44]
    requires { (k : ℕ) → get_or ss k 0 ≤ 39 }
    ensures { result ≡ held ss }
{
    let mut out = ss;
    for i in 1..44 {
        out[i] = ss[i].min(out[i - 1] + 16);
    }
    out
}

// Legal norms in band order; 8 for an index over 39. A first index over 31 is not refused: it becomes 31.
pub fn legalise(transient: bool, norms: [u8; 44]) -> Legal
    ensures { result ≡ legalised transient norms }
{
    if !ground::indices::in_range(&norms) {
        return Legal {
            reply: u8::from(Reply::OutOfRange),
            norms: [0u8; 44],
        };
    }
    let legal = hold(lower(cap(order::sent_order(transient, norms))));
    Legal {
        reply: DONE,
        norms: order::band_order(transient, legal),
    }
}
