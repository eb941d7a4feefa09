// How many rounds a contest took (02, No. 5), from the rates that it ended with.

#![tactic(auto)]

ghost use Rattle.std.specs.Prelude.{cond, ◌&&◌, ◌≡◌, ◌+◌, ◌≤◌, ltb};
ghost use Rattle.ground.specs.Sums.{nth};
ghost use Rattle.contest.specs.Bands.{competing};
ghost use Rattle.contest.specs.Rounds.{rounds_by_rates};

// A round for each step, and one in which a competing band was put out below rate 9.
fn of_band(competes: bool, rate: u8) -> u16
    ensures { (result ≡ rate + cond (competes && ltb rate 9) 1 0) × (result ≤ 256) }
{
    u16::from(rate) + u16::from(competes && rate < 9)
}

// The sum of all rates, and the number of competing bands below rate 9.
pub fn by_rates(wide: bool, rates: &[u8; 44]) -> u16
    ensures { result ≡ rounds_by_rates (competing wide) (nth rates.now) }
{
    let mut sum = 0;
    for (p, rate) in rates.iter().enumerate() {
        sum += of_band(levels::competes(wide, p), *rate);
    }
    sum
}
