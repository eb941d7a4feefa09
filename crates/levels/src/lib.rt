// The contest's answer, whole levels served at once. All offers above a level are granted together where the budget pays them; then the few rounds that are
// left are played one by one.

#![tactic(auto)]

ghost use Rattle.std.specs.Prelude.{length, ◌≡◌, ℕ, ◌+◌, ◌-◌, ◌*◌, ◌/◌, ◌≤◌, ◌<◌, MatchOption};
ghost use Rattle.ground.specs.ListsByRule.{table};
ghost use Rattle.ground.specs.Sums.{nth};
ghost use Rattle.contest.specs.Bands.{length_of, competing};
ghost use Rattle.levels.specs.Inner.{climb, bill, bid, bid_at, highest, Keyed, Leading, Finished, key_of, keys_of};
ghost use Rattle.levels.specs.Levels.{Room, settled};

#[derive(Clone, Copy)]
pub struct Ends {
    pub rates: [u8; 44],
    pub left: u16,
}

static LENGTHS: [u16; 44] = [
    8, 8, 8, 8, 8, 8, 8, 8, 8, 8, 8, 8, 8, 8, 8, 8, 16, 16, 16, 16, 16, 16, 16, 16, 24, 24, 24, 24,
    24, 24, 24, 24, 24, 24, 24, 24, 32, 32, 32, 32, 32, 32, 32, 32,
];

fn length_of(p: usize) -> u16
    requires { p < 44 }
    ensures { (result ≡ length_of p) × (result ≤ 32) }
{
    LENGTHS[p]
}

fn climb_of(key: u16, level: u16) -> u16
    ensures { (result ≡ climb key level) × (result ≤ 9) }
{
    (key.saturating_sub(level) / 2048).min(9)
}

fn bill_of(keys: &[u16; 44], level: u16) -> u16
    ensures { result ≡ bill keys.now level 44 }
{
    let mut sum = 0;
    for (p, key) in keys.iter().enumerate() {
        sum += climb_of(*key, level) * length_of(p);
    }
    sum
}

// The level is found by halving; that it is the lowest one that the budget pays matters for speed alone.
fn level_of(keys: &[u16; 44], budget: u16) -> u16
    ensures { bill keys.now result 44 ≤ budget }
{
    let mut level = u16::MAX;
    for bit in (0..16u32).rev() {
        let lower = level.saturating_sub(1 << bit);
        if bill_of(keys, lower) <= budget {
            level = lower;
        }
    }
    level
}

fn climbs(keys: &[u16; 44], level: u16) -> [u8; 44]
    ensures { result ≡ table 44 (λ p. climb (nth keys.now p) level) }
{
    std::array::from_fn(|p| climb_of(keys[p], level) as u8)
}

fn bid_of(key: u16, size: u16, rate: u8, left: u16) -> u16
    ensures { result ≡ bid key size rate left }
{
    if size <= left && rate < 9 {
        key.saturating_sub(2048 * u16::from(rate))
    } else {
        0
    }
}

// The highest bid, 0 if no band bids.
fn top_bid(keys: &[u16; 44], rates: &[u8; 44], left: u16) -> u16
    ensures { result ≡ highest (bid_at keys.now rates.now left) 44 }
{
    let mut top: u16 = 0;
    for p in 0..44 {
        top = top.max(bid_of(keys[p], length_of(p), rates[p], left));
    }
    top
}

// The band with the highest bid, if any bids: it stands in the bid's lowest six bits.
fn leading(keys: &[u16; 44], rates: &[u8; 44], left: u16) -> Option<usize>
    requires { Keyed keys.now }
    ensures { MatchOption result ((p : ℕ) → p < 44 → bid_at keys.now rates.now left p ≡ 0) (Leading keys.now rates.now left) }
{
    if left < 8 {
        return None;
    }
    let top = top_bid(keys, rates, left);
    if top == 0 {
        None
    } else {
        Some(usize::from(63 - top % 64))
    }
}

fn serve_rest(keys: &[u16; 44], start: [u8; 44], budget: u16) -> Ends
    requires { Keyed keys.now × (length start ≡ 44) }
    ensures { Finished keys.now start budget result.rates result.left }
{
    let mut rates = start;
    let mut left = budget;
    while let Some(q) = leading(keys, &rates, left) {
        rates[q] += 1;
        left -= length_of(q);
    }
    Ends { rates, left }
}

// All 44 compete, or only bands 0 to 35.
pub fn competes(wide: bool, p: usize) -> bool
    ensures { result ≡ competing wide p }
{
    wide || p < 36
}

// 0 for a band that is out, as the definition has it: every bid stands above it, so one maximum finds who leads.
fn key_of(wide: bool, p: usize, height: u16) -> u16
    requires { (p < 44) × (height ≤ 976) }
    ensures { result ≡ key_of wide p height }
{
    if competes(wide, p) {
        64 * height + (63 - (p as u16)) + 2048
    } else {
        0
    }
}

fn keys_of(wide: bool, heights: &[u16; 44]) -> [u16; 44]
    requires { Room heights.now }
    ensures { result ≡ keys_of wide heights.now }
{
    std::array::from_fn(|p| key_of(wide, p, heights[p]))
}

// The rates and the bits left at the end of the contest that starts from these scores, each raised by 368.
pub fn settle(wide: bool, heights: &[u16; 44], budget: u16) -> Ends
    requires { Room heights.now }
    ensures { result ≡ settled wide heights.now budget }
{
    let keys = keys_of(wide, heights);
    let level = level_of(&keys, budget);
    let start = climbs(&keys, level);
    serve_rest(&keys, start, budget - bill_of(&keys, level))
}
