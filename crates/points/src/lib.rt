// Lattice points and their indices at the rates 2 to 9 (01, Lattice; 7.6.2): the two calls, each other's inverse.

#![tactic(auto)]

ghost use Rattle.std.specs.Prelude.{◌≡◌, ℕ, suc, true, false, ◌+◌, ◌<◌, ◌≤◌, ◌^◌, get_or, pos, MatchOption};
ghost use Rattle.ground.specs.Differences.{Is};
ghost use Rattle.lattice.specs.Lattice.{sum_z, back_at, back};
ghost use Rattle.points.specs.Answers.{owns, below, answer_point, point_of, agree, answer_index, index_of};

use ground::numbers::raise;
use ground::replies::{DONE, Reply};
use lattice::Lattice;

// C reads this struct: g719_lattice_point and g719_codebook_point hand it on.
#[repr(C)]
#[derive(Clone, Copy)]
pub struct Point {
    pub reply: u8,
    pub at: [i16; 8],
}

impl From<Option<[i16; 8]>> for Point {
    ghost from_gives = { λ found p. p ≡ answer_point found };

    #[tactic(auto, unfolding(ground::specs::ListsByRule::from))]
    fn from(found: Option<[i16; 8]>) -> Point {
        match found {
            Some(at) => Point { reply: DONE, at },
            None => Point {
                reply: Reply::OutOfRange.into(),
                at: [0; 8],
            },
        }
    }
}

// C reads this struct: g719_lattice_index hands it on.
#[repr(C)]
#[derive(Clone, Copy)]
pub struct Index {
    pub reply: u8,
    pub at: [u16; 8],
}

impl From<Option<[u16; 8]>> for Index {
    ghost from_gives = { λ found a. a ≡ answer_index found };

    #[tactic(auto, unfolding(ground::specs::ListsByRule::from))]
    fn from(found: Option<[u16; 8]>) -> Index {
        match found {
            Some(at) => Index { reply: DONE, at },
            None => Index {
                reply: Reply::OutOfRange.into(),
                at: [0; 8],
            },
        }
    }
}

// Whether each index is below r
fn in_range(r: u32, k: &[u16; 8]) -> bool
    ensures { result ≡ below r k.now 8 }
{
    k.iter().all(|n| u32::from(*n) < r)
}

// The lattice of a rate, if the rate is one of these calls' own
fn owned(rate: u8) -> Option<Lattice>
    ensures { MatchOption result (owns rate ≡ false) (λ lattice. (owns rate ≡ true) × (lattice.r ≡ 2 ^ rate)) }
{
    (2..=9).contains(&rate).then(|| Lattice::of(rate))
}

// The point that an index names, if the rate is owned and the index is in range
fn point_named(rate: u8, index: &[u16; 8]) -> Option<[i16; 8]>
    ensures { answer_point result ≡ point_of rate index.now }
{
    let lattice = owned(rate)?;
    if in_range(lattice.r, index) {
        Some(lattice.point_list(index))
    } else {
        None
    }
}

// The point that an index names: 0 and the point; 8 for a rate outside 2 to 9 or an index of 2 to the rate or more.
pub fn lattice_point(rate: u8, index: &[u16; 8]) -> Point
    ensures { result ≡ point_of rate index.now }
{
    Point::from(point_named(rate, index))
}

// v2 + … + v8, each raised
fn raised_rest(v: &[i16; 8]) -> u32
    ensures { Is (sum_z (λ (i : ℕ). get_or v.now (suc i) (pos 0)) 7) result 229376 × (result < 458752) }
{
    let mut sum = 0;
    for z in &v[1..] {
        sum += raise(*z);
    }
    sum
}

// (v1 − v2 − … − v8) / 2 modulo r: 32768 is a multiple of r, and raises the difference above 0 by a multiple of 2 r
fn back_first(lattice: Lattice, v: &[i16; 8]) -> u32
    ensures { (result ≡ back_at lattice.r v.now 0) × (result < 65536) }
{
    (raise(v[0]) + 458752 - raised_rest(v)) / 2 % lattice.r
}

// The number at a place on the way back: vi modulo r, but at the first place
fn back_at(lattice: Lattice, v: &[i16; 8], i: usize) -> u32
    requires { i < 8 }
    ensures { (result ≡ back_at lattice.r v.now i) × (result < 65536) }
{
    if i == 0 {
        back_first(lattice, v)
    } else {
        raise(v[i]) % lattice.r
    }
}

fn back_list(lattice: Lattice, v: &[i16; 8]) -> [u16; 8]
    ensures { result ≡ back lattice.r v.now }
{
    let mut k = [0; 8];
    for (i, n) in k.iter_mut().enumerate() {
        *n = back_at(lattice, v, i) as u16;
    }
    k
}

// Whether two points are the same
pub fn same(v: &[i16; 8], w: &[i16; 8]) -> bool
    ensures { result ≡ agree v.now w.now 8 }
{
    v == w
}

// The index that names a point, if the rate is owned and an index names it
fn index_named(rate: u8, point: &[i16; 8]) -> Option<[u16; 8]>
    ensures { answer_index result ≡ index_of rate point.now }
{
    let lattice = owned(rate)?;
    let k = back_list(lattice, point);
    same(&lattice.point_list(&k), point).then_some(k)
}

// The index that names a point: 0 and the index; 8 for a rate outside 2 to 9 or a point that no index of that rate names.
pub fn lattice_index(rate: u8, point: &[i16; 8]) -> Index
    ensures { result ≡ index_of rate point.now }
{
    Index::from(index_named(rate, point))
}
