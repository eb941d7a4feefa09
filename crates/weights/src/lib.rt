// The weights and starting scores of 7.5.1. The code counts in naturals: loudness raised by 5, every 720th by 3,600.

#![tactic(auto)]

mod table17;

ghost use Rattle.std.specs.Prelude.{length, sum, ◌≡◌, true, ℕ, ◌+◌, ◌-◌, ◌*◌, ◌≤◌, ◌<◌};
ghost use Rattle.ground.specs.ListsByRule.{table};
ghost use Rattle.ground.specs.Sums.{nth};
ghost use Rattle.weights.specs.Table17.{row_of};
ghost use Rattle.weights.specs.Inner.{quarter, row, smooth, turned, excess, most, least, scaled, raised_rows};
ghost use Rattle.weights.specs.Weights.{spread, weights_of, score, weighed};
ghost use Rattle.ground.specs.Indices.{in_range};

use crate::table17::{Row, row_of};
use ground::replies::{DONE, Reply};

// C reads this struct: g719_weigh hands it on.
#[repr(C)]
#[derive(Clone, Copy)]
pub struct Weights {
    pub reply: u8,
    pub weights: [u8; 44],
    pub scores: [i16; 44],
}

fn raised(index: u8) -> u8
    ensures { result ≡ 39 - index }
{
    39u8.saturating_sub(index)
}

// (23), four times.
fn quarter_at(transient: bool, norms: &[u8; 44], p: usize) -> u8
    requires { p < 44 }
    ensures { result ≡ quarter transient norms.now p }
{
    if transient {
        let q = 4 * (p / 4);
        raised(norms[q]) + raised(norms[q + 1]) + raised(norms[q + 2]) + raised(norms[q + 3])
    } else {
        4 * raised(norms[p])
    }
}

fn quarters(transient: bool, norms: &[u8; 44]) -> [u8; 44]
    ensures { result ≡ table 44 (quarter transient norms.now) }
{
    std::array::from_fn(|p| quarter_at(transient, norms, p))
}

fn sum_of(qs: &[u8]) -> u16
    requires { length qs.now ≤ 44 }
    ensures all { result ≡ sum qs.now }
    ensures low { result ≤ 255 * length qs.now }
{
    qs.iter().map(|q| u16::from(*q)).sum()
}

// (24)
fn row_at(qs: &[u8; 44], b: usize) -> u16
    requires { b < 20 }
    ensures { result ≡ row qs.now b }
{
    let row = Row::at(b);
    row.part * sum_of(&qs[row.first..row.first + row.height]) + row.lift
}

fn rows(qs: &[u8; 44]) -> [u16; 20]
    ensures { result ≡ table 20 (row qs.now) }
{
    std::array::from_fn(|b| row_at(qs, b))
}

// (25), and (26) on the rows turned round.
fn smoothed(mut bs: [u16; 20], by: u16) -> [u16; 20]
    ensures { result ≡ table 20 (smooth by bs) }
{
    for b in 1..20 {
        bs[b] = bs[b].max(bs[b - 1].saturating_sub(by));
    }
    bs
}

fn turned(mut bs: [u16; 20]) -> [u16; 20]
    ensures { result ≡ turned bs }
{
    bs.reverse();
    bs
}

// (27) with the sign changed.
fn excess_at(bs: &[u16; 20], b: usize) -> u16
    requires { b < 20 }
    ensures { result ≡ excess bs.now b }
{
    let row = Row::at(b);
    bs[b].max(row.floor).saturating_sub(row.lift)
}

// (28)
fn scale(hi: u16, lo: u16, d: u16) -> u8
    requires { (lo ≤ d) × (d ≤ hi) }
    ensures { result ≡ scaled hi lo d }
{
    if lo < hi {
        (64 * u32::from(hi - d) / u32::from(hi - lo)) as u8
    } else {
        0
    }
}

fn most_of(ds: &[u16; 20]) -> u16
    ensures { result ≡ most ds.now 19 }
{
    ds.iter().copied().max().unwrap_or(0)
}

fn least_of(ds: &[u16; 20]) -> u16
    ensures { result ≡ least ds.now 19 }
{
    ds.iter().copied().min().unwrap_or(0)
}

fn scales(ds: &[u16; 20]) -> [u8; 20]
    ensures { result ≡ table 20 (λ b. scaled (most ds.now 19) (least ds.now 19) (nth ds.now b)) }
{
    let hi = most_of(ds);
    let lo = least_of(ds);
    std::array::from_fn(|b| scale(hi, lo, ds[b]))
}

fn row_weights(transient: bool, norms: &[u8; 44]) -> [u8; 20]
    ensures { result ≡ raised_rows transient norms.now }
{
    let b24 = rows(&quarters(transient, norms));
    let b25 = smoothed(b24, 2880);
    let b26 = turned(smoothed(turned(b25), 5760));
    scales(&std::array::from_fn(|b| excess_at(&b26, b)))
}

// (29)
fn laid(rows: &[u8; 20]) -> [u8; 44]
    ensures { result ≡ table 44 (λ p. nth rows.now (row_of p)) }
{
    std::array::from_fn(|p| rows[row_of(p)])
}

// (30). Beside quarter_at it sums in more bits and divides, so one function for both would be no plainer.
fn spread_at(transient: bool, ws: &[u8; 44], p: usize) -> u8
    requires { p < 44 }
    ensures { result ≡ spread transient ws.now p }
{
    if transient {
        let q = 4 * (p / 4);
        let sum = u16::from(ws[q])
            + u16::from(ws[q + 1])
            + u16::from(ws[q + 2])
            + u16::from(ws[q + 3]);
        (sum / 4) as u8
    } else {
        ws[p]
    }
}

// The 44 weights, for indices that are known to be in range.
pub fn weights_of(transient: bool, norms: &[u8; 44]) -> [u8; 44]
    requires { in_range norms.now 44 ≡ true }
    ensures { (result ≡ weights_of transient norms.now) × ((k : ℕ) → nth result k ≤ 64) }
{
    let ws = laid(&row_weights(transient, norms));
    std::array::from_fn(|p| spread_at(transient, &ws, p))
}

// (31)
fn score_of(index: u8, w: u8) -> i16
    ensures { result ≡ score index w }
{
    16 * (34 - i16::from(index)) + i16::from(w)
}

fn scores_of(norms: &[u8; 44], ws: &[u8; 44]) -> [i16; 44]
    ensures { result ≡ table 44 (λ p. score (nth norms.now p) (nth ws.now p)) }
{
    std::array::from_fn(|p| score_of(norms[p], ws[p]))
}

// The weights and starting scores of 44 norm indices in band order; 8 and zeros for an index over 39.
pub fn weigh(transient: bool, norms: [u8; 44]) -> Weights
    ensures { result ≡ weighed transient norms }
{
    if ground::indices::in_range(&norms) {
        let weights = weights_of(transient, &norms);
        let scores = scores_of(&norms, &weights);
        return Weights {
            reply: DONE,
            weights,
            scores,
        };
    }
    Weights {
        reply: Reply::OutOfRange.into(),
        weights: [0; 44],
        scores: [0; 44],
    }
}
