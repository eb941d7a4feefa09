// The row of a point at rate 1 (01, Codebook; 7.6.1, Table 18): by its code, among the rows of its class.

#![tactic(auto)]

ghost use Rattle.std.specs.Prelude.{◌≡◌, ℕ, ◌+◌, ◌<◌, ◌≤◌};
ghost use Rattle.std.specs.declared.option.Option.TheVariants.{Some};
ghost use Rattle.codebook.specs.Codebook.{row, row_index, answer_row};
ghost use Rattle.codebook.specs.Packed.{weight, code, sign_class, Found};

use codebook::Row;
use codebook::tables::Tables;
use std::cmp::Ordering;

// What a number adds to a code, times 2 to its place
fn weight_of(z: i16) -> u32
    ensures { (result ≡ weight z) × (result ≤ 256) }
{
    match z.cmp(&0) {
        Ordering::Greater => 256,
        Ordering::Less => 1,
        Ordering::Equal => 0,
    }
}

// The code of a vector
fn code_of(v: &[i16; 8]) -> u32
    ensures { (result ≡ code v.now) × (result < 65536) }
{
    let mut c = 0;
    for (i, z) in v.iter().enumerate() {
        c += weight_of(*z) << i;
    }
    c
}

// The first and the last row of the class of a byte of signs, told by how many ones it has
#[tactic(auto, unfolding(codebook::specs::Packed::sign_class))]
fn sign_class(n: u32) -> (u8, u8)
    ensures { (result.0 ≡ (sign_class n).from) × (result.1 + 1 ≡ (sign_class n).to) × (result.0 ≤ result.1) }
{
    match n {
        2 => (128, 155),
        4 => (156, 225),
        6 => (226, 253),
        8 => (254, 254),
        _ => (255, 255),
    }
}

// The first row with this code, from one on and up to another
fn find_code(tables: &Tables, x: u32, first: u8, last: u8) -> Option<u8>
    requires { first ≤ last }
    ensures { Found x first (last + 1) result }
{
    for n in usize::from(first)..=usize::from(last) {
        if tables.code_at(n) == x {
            return Some(n as u8);
        }
    }
    None
}

// The one row that can have this code
fn seek_row(x: u32) -> Option<u8>
    ensures { (j : ℕ) → j < 256 → code (row j) ≡ x → result ≡ Some j }
{
    let tables = Tables::packed();
    let byte = x % 256;
    if x / 256 + byte == 255 {
        let (first, last) = sign_class(byte.count_ones());
        find_code(&tables, x, first, last)
    } else {
        find_code(&tables, x, 0, 127)
    }
}

// The row that is a point, if the rate is 1 and one is
#[tactic(auto, using(crate::proofs::Laws::Seek::row_foreign))]
fn row_named(rate: u8, point: &[i16; 8]) -> Option<u8>
    ensures { answer_row result ≡ row_index rate point.now }
{
    if rate != 1 {
        return None;
    }
    let n = seek_row(code_of(point))?;
    points::same(&codebook::row_list(n), point).then_some(n)
}

// The index that names a point: 0 and its number; 8 for a rate that is not 1 or a vector that is no row.
pub fn codebook_index(rate: u8, point: &[i16; 8]) -> Row
    ensures { result ≡ row_index rate point.now }
{
    Row::from(row_named(rate, point))
}
