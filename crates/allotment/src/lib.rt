// The allotment of 7.5.2: the kind of frame, whether bands 36 to 43 compete, 44 norm indices and a budget give 44 rates, the bits left and the number of
// rounds that the contest takes.

#![tactic(auto)]

ghost use Rattle.std.specs.Prelude.{true, ◌≡◌, ℕ, ◌+◌, ◌-◌, ◌*◌, ◌≤◌, ◌<◌};
ghost use Rattle.ground.specs.ListsByRule.{table};
ghost use Rattle.ground.specs.Sums.{nth};
ghost use Rattle.ground.specs.Indices.{in_range};
ghost use Rattle.allotment.specs.Allotment.{shares_of};

use ground::replies::{DONE, Reply};

// C reads this struct: g719_allot hands it on.
#[repr(C)]
#[derive(Clone, Copy)]
pub struct Shares {
    pub reply: u8,
    pub rates: [u8; 44],
    pub left: u16,
    pub rounds: u16,
}

// 16 × loudness + W, raised by 368.
fn height_of(index: u8, w: u8) -> u16
    requires { (index ≤ 39) × (w ≤ 64) }
    ensures { result ≡ 912 - 16 * index + w }
{
    912 - 16 * u16::from(index) + u16::from(w)
}

fn heights_of(norms: &[u8; 44], ws: &[u8; 44]) -> [u16; 44]
    requires { (in_range norms.now 44 ≡ true) × ((k : ℕ) → nth ws.now k ≤ 64) }
    ensures { result ≡ table 44 (λ p. 912 - 16 * nth norms.now p + nth ws.now p) }
{
    std::array::from_fn(|p| height_of(norms[p], ws[p]))
}

// The rates of the 44 bands, the bits left and the number of rounds; 8 and zeros for an index over 39 or a budget over 2,560.
pub fn allot(transient: bool, wide: bool, norms: [u8; 44], budget: u32) -> Shares
    ensures { result ≡ shares_of transient wide norms budget }
{
    let paid = budget <= 2560;
    if ground::indices::in_range(&norms) && paid {
        let ws = weights::weights_of(transient, &norms);
        let heights = heights_of(&norms, &ws);
        let ends = levels::settle(wide, &heights, budget as u16);
        return Shares {
            reply: DONE,
            rates: ends.rates,
            left: ends.left,
            rounds: rounds::by_rates(wide, &ends.rates),
        };
    }
    Shares {
        reply: Reply::OutOfRange.into(),
        rates: [0; 44],
        left: 0,
        rounds: 0,
    }
}
