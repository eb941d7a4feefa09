// From a lattice index to its point, at the rates 2 to 9 (01, Lattice; 7.6.2): rounded, and one place changed where the sum is odd.

#![tactic(auto)]

ghost use Rattle.std.specs.Prelude.{◌≡◌, cond, eqb, ltb, ℕ, suc, ◌+◌, ◌*◌, ◌%◌, ◌<◌, ◌≤◌, ◌^◌, get_or};
ghost use Rattle.std.specs.declared.option.Option.TheVariants.{Some, None};
ghost use Rattle.ground.specs.Differences.{Is};
ghost use Rattle.ground.specs.Sums.{sum_to};
ghost use Rattle.lattice.specs.Lattice.{x, rounded, rounded_sum, largest, point};
ghost use Rattle.lattice.specs.Inner.{Error, Errors, away};

use ground::numbers::lower;

// The sum of the rounded numbers of an index, and its eight errors, raised.
#[derive(Clone, Copy)]
struct Rounded {
    sum: u32,
    errors: [u32; 8],
}

impl Rounded {
    // The place to change, if there is one
    #[inline(always)]
    fn changed_place(&self) -> Option<usize>
        ensures { result ≡ cond (eqb (self.now.sum % 2) 1) (Some (largest (λ (i : ℕ). away (get_or self.now.errors i 0)) 8)) None }
    {
        (self.sum % 2 == 1).then(|| worst_place(&self.errors))
    }
}

// The lattice of a rate from 2 to 9: r is 2 to the rate.
#[derive(Clone, Copy)]
pub struct Lattice {
    pub r: u32,
    ghost low: { 4 ≤ r },
    ghost high: { r ≤ 512 },
    ghost even: { r % 2 ≡ 0 },
    ghost divides: { 32768 % r ≡ 0 },
}

impl Lattice {
    pub fn of(rate: u8) -> Lattice
        requires { (2 ≤ rate) × (rate ≤ 9) }
        ensures { result.r ≡ 2 ^ rate }
    {
        Lattice { r: 1 << rate }
    }

    // x / r to the nearest whole number, half downwards
    fn round_of(self, x: u32) -> u32
        requires { x < 1000000 }
        ensures { (result ≡ rounded self.r x) × (result < 1000512) }
    {
        (x + (self.r / 2 - 1)) / self.r
    }

    // The error x − r × rounded, raised
    fn error_of(self, x: u32, q: u32) -> u32
        requires { (x < 1000000) × (q ≡ rounded self.r x) }
        ensures { Error self.r x result }
    {
        x + 32768 - self.r * q
    }

    // In line, as point_list, so that the divisions by r are shifts: the caller has made r from a rate.
    #[inline(always)]
    fn rounding(self, k: &[u16; 8]) -> Rounded
        ensures { (result.sum ≡ rounded_sum self.r k.now) × Errors self.r k.now result.errors 8 }
    {
        let first = first_x(k);
        let mut sum = 0;
        let mut errors = [0; 8];
        for (i, e) in errors.iter_mut().enumerate() {
            let x = x_at(k, first, i);
            let q = self.round_of(x);
            sum += q;
            *e = self.error_of(x, q);
        }
        Rounded { sum, errors }
    }

    // The point that an index names
    #[inline(always)]
    pub fn point_list(self, k: &[u16; 8]) -> [i16; 8]
        ensures { result ≡ point self.r k.now }
    {
        let s = self.rounding(k);
        let changed = s.changed_place();
        let mut v = [0; 8];
        for (i, z) in v.iter_mut().enumerate() {
            *z = lower(settle(self.r, s.errors[i], changed == Some(i)), 32768);
        }
        v
    }
}

// The first x: 2 k1 + k2 + … + k8
fn first_x(k: &[u16; 8]) -> u32
    ensures { (result ≡ 2 * get_or k.now 0 0 + sum_to (λ (i : ℕ). get_or k.now (suc i) 0) 7) × (result < 1000000) }
{
    u32::from(k[0]) + k.iter().map(|n| u32::from(*n)).sum::<u32>()
}

fn x_at(k: &[u16; 8], first: u32, i: usize) -> u32
    requires { (first ≡ x k.now 0) × (first < 1000000) × (i < 8) }
    ensures { (result ≡ x k.now i) × (result < 1000000) }
{
    if i == 0 { first } else { u32::from(k[i]) }
}

// |e| of a raised e
fn distance(e: u32) -> u32
    ensures { result ≡ away e }
{
    e.abs_diff(32768)
}

// The first place of the largest |e|
fn worst_place(errors: &[u32; 8]) -> usize
    ensures { (result ≡ largest (λ (i : ℕ). away (get_or errors.now i 0)) 8) × (result < 8) }
{
    let mut w = 0;
    for i in 1..8 {
        if distance(errors[w]) < distance(errors[i]) {
            w = i;
        }
    }
    w
}

// The coordinate of an error, both raised: at the place that is changed, r less if e > 0, else r more
fn settle(r: u32, e: u32, change: bool) -> u32
    requires { (r ≤ 512) × (e ≤ 33024) × (32512 ≤ e) }
    ensures { (result + r * cond change (cond (ltb 32768 e) 1 0) 0 ≡ e + r * cond change (cond (ltb 32768 e) 0 1) 0) × (result < 65536) }
{
    if !change {
        e
    } else if 32768 < e {
        e - r
    } else {
        e + r
    }
}
