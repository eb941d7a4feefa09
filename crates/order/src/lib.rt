// The order in which the 44 norms are sent (8.2): band order, or in a transient frame the interleaved order.

#![tactic(auto)]

ghost use Rattle.std.specs.Prelude.{◌≡◌, ℕ, ◌<◌, length, get_or};
ghost use Rattle.ground.specs.ListsByRule.{table};
ghost use Rattle.order.specs.SentOrder.{pick, sent, banded};

mod tables;

// The norms in another order: at each place the one that a lent table names.
#[tactic(auto, using(ground::proofs::Laws::FillingLoops::filling))]
fn reordered(at: &[usize; 44], norms: [u8; 44]) -> [u8; 44]
    requires { (length at.now ≡ 44) × ((k : ℕ) → k < 44 → get_or at.now k 0 < 44) }
    ensures { result ≡ table 44 (pick at.now norms) }
{
    let mut out = [0u8; 44];
    for (i, k) in at.iter().enumerate() {
        out[i] = norms[*k];
    }
    out
}

// From band order to sent order.
pub fn sent_order(transient: bool, norms: [u8; 44]) -> [u8; 44]
    ensures { result ≡ sent transient norms }
{
    if transient {
        reordered(&tables::ORDER, norms)
    } else {
        norms
    }
}

// From sent order to band order.
pub fn band_order(transient: bool, ss: [u8; 44]) -> [u8; 44]
    ensures { result ≡ banded transient ss }
{
    if transient {
        reordered(&tables::PLACES, ss)
    } else {
        ss
    }
}
