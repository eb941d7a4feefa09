// The codebook of rate 1 (001, 7.6.1, Tables 18 and 19; 01, "Rate 1"): the row of an index.
// A row is kept as a code: its high byte has a one for each place above 0, its low byte a one for each place below 0.

#![tactic(auto)]

ghost use Rattle.std.specs.Prelude.{◌≡◌, ◌<◌};
ghost use Rattle.points.specs.Answers.{answer_point};
ghost use Rattle.codebook.specs.Codebook.{row, row_point, answer_row};
ghost use Rattle.codebook.specs.Packed.{code, entry};
ghost use Rattle.codebook.specs.Inner.{digit};

use ground::replies::{DONE, Reply};
use points::Point;
use tables::Tables;

pub mod tables;

// C reads this struct: g719_codebook_index hands it on.
#[repr(C)]
#[derive(Clone, Copy)]
pub struct Row {
    pub reply: u8,
    pub index: u8,
}

impl From<Option<u8>> for Row {
    ghost from_gives = { λ found a. a ≡ answer_row found };

    fn from(found: Option<u8>) -> Row {
        match found {
            Some(index) => Row { reply: DONE, index },
            None => Row {
                reply: Reply::OutOfRange.into(),
                index: 0,
            },
        }
    }
}

fn has(b: u32, i: usize) -> bool
    requires { i < 8 }
    ensures { result ≡ digit b i }
{
    (b >> i) % 2 == 1
}

fn entry_of(two: bool, plus: bool, minus: bool) -> i16
    ensures { result ≡ entry two plus minus }
{
    match (plus, minus, two) {
        (true, _, true) => 2,
        (true, _, false) => 1,
        (false, true, true) => -2,
        (false, true, false) => -1,
        (false, false, _) => 0,
    }
}

pub fn row_list(n: u8) -> [i16; 8]
    ensures { result ≡ row n }
{
    let c = Tables::packed().code(n);
    let mut v = [0; 8];
    for (i, z) in v.iter_mut().enumerate() {
        *z = entry_of(n < 128, has(c / 256, i), has(c % 256, i));
    }
    v
}

// The row that an index names, if the rate is 1 and the index at most 255
#[tactic(auto, using(crate::proofs::Laws::OneToOne::row_answered, crate::proofs::Laws::OneToOne::rate_refused, crate::proofs::Laws::OneToOne::index_refused))]
fn row_named(rate: u8, index: u16) -> Option<[i16; 8]>
    ensures { answer_point result ≡ row_point rate index }
{
    if rate != 1 {
        return None;
    }
    let n = u8::try_from(index).ok()?;
    Some(row_list(n))
}

// The point that an index names: 0 and the row; 8 for a rate that is not 1 or an index over 255.
pub fn codebook_point(rate: u8, index: u16) -> Point
    ensures { result ≡ row_point rate index }
{
    Point::from(row_named(rate, index))
}
