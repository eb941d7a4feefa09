// Numbers as text: so many digits, or as many as a number has, put into a lent slice.

#![tactic(auto)]

ghost use Rattle.std.specs.Prelude.{◌≡◌, ◌++◌, ◌+◌, ◌≤◌, length};
ghost use Rattle.decimals.specs.Decimals.{digits, decimal};
ghost use Rattle.ground.specs.Laying.{TextLaid};

use ground::bytes::put;

// Puts the last k digits of a number.
pub fn put_digits(out: &mut [u8], at: usize, n: usize, k: usize) -> usize
    requires { at + k ≤ length out.old }
    ensures { TextLaid out.old at (digits k n) out.new result }
{
    let mut rest = n;
    for i in (0..k).rev() {
        out[at + i] = b'0' + (rest % 10) as u8;
        rest /= 10;
    }
    at + k
}

// How many digits a number has; 0 has one. ilog10 looks into a table, and the numbers of a listing are small.
#[tactic(auto, using(crate::proofs::Laws::Digits::width_one, crate::proofs::Laws::Digits::width_two, crate::proofs::Laws::Digits::width_three, crate::proofs::Laws::Digits::width_four, crate::proofs::Laws::Digits::width_more))]
fn places(n: usize) -> usize
    ensures { decimal n ≡ digits result n }
{
    match n {
        0..10 => 1,
        10..100 => 2,
        100..1000 => 3,
        1000..10000 => 4,
        _ => n.ilog10() as usize + 1,
    }
}

// Puts a label and behind it a number, without zeros in front.
pub fn put_number(out: &mut [u8], at: usize, label: &[u8], n: usize) -> usize
    requires { at + length (label.now ++ decimal n) ≤ length out.old }
    ensures { TextLaid out.old at (label.now ++ decimal n) out.new result }
{
    let behind = put(out, at, label);
    put_digits(out, behind, n, places(n))
}
