// The words of norms (Table 16) by their shape (02, No. 3): neither the words nor a look-up of them stands in the code.

#![tactic(auto)]

ghost use Rattle.std.specs.Prelude.{◌≡◌, ◌+◌, ◌≤◌, ◌<◌};
ghost use Rattle.norm_words.specs.Shape.{word_in, middle, at_least, more_bits, seven_of, spelling, step_size, beyond};

// A word among seven bits: the number that it names, and how many of the bits it has.
#[derive(Clone, Copy, Debug, PartialEq, Eq)]
pub struct Found {
    pub number: usize,
    pub bits: usize,
}

// A word as so many bits of a number.
#[derive(Clone, Copy, Debug, PartialEq, Eq)]
pub struct Spelling {
    pub bits: usize,
    pub value: usize,
}

// The word with which seven bits begin: a 0 as third bit ends it, else a 0 as fourth, else a 0 as sixth whatever the fifth is, else it has all seven.
#[tactic(auto, using(crate::proofs::Laws::Ends::ends_third, crate::proofs::Laws::Ends::ends_fourth, crate::proofs::Laws::Ends::ends_sixth, crate::proofs::Laws::Ends::ends_last))]
pub fn word_in(seven: usize) -> Found
    ensures { (result ≡ word_in seven) × (result.bits ≤ 7) × (result.number ≤ seven + 28) }
{
    let pair = seven / 32;
    let first = seven / 64 % 2;
    if seven / 16 % 2 == 0 {
        return Found {
            number: pair + 4 * (4 - first),
            bits: 3,
        };
    }
    if seven / 8 % 2 == 0 {
        return Found {
            number: pair + 4 * (3 + first),
            bits: 4,
        };
    }
    let fifth = seven / 4 % 2;
    if seven / 2 % 2 == 0 {
        return Found {
            number: pair + 4 * (2 + 3 * fifth),
            bits: 6,
        };
    }
    Found {
        number: pair + 4 * (6 * fifth + seven % 2),
        bits: 7,
    }
}

// How far a number under 32 is from the middle: 0 for 15 and 16, and 15 for 0 and 31.
#[tactic(auto, unfolding(crate::specs::Shape::middle))]
fn from_middle(number: u8) -> u8
    ensures { result ≡ middle number }
{
    if number < 16 {
        15 - number
    } else {
        number - 16
    }
}

// 1 from k on, 0 below.
fn at_least(far: u8, k: u8) -> u8
    ensures { (result ≡ at_least far k) × (result ≤ 1) }
{
    u8::from(k <= far)
}

// What a word has over three bits, by how far its number is from the middle.
#[tactic(auto, unfolding(crate::specs::Shape::more_bits))]
pub fn more_bits(far: u8) -> u8
    ensures { (result ≡ more_bits far) × (result ≤ 4) }
{
    at_least(far, 2) + 2 * at_least(far, 4) + at_least(far, 8)
}

// The seven bits of which the word of a number is the first.
#[tactic(auto, unfolding(crate::specs::Shape::seven_of))]
fn seven_of(number: u8, far: u8) -> u8
    ensures { result ≡ seven_of number far }
{
    number % 4 * 32
        + at_least(far, 2) * 16
        + at_least(far, 4) * 8
        + number / 16 * 4
        + at_least(far, 8) * 2
        + number / 4 % 2
}

// The word of a number: it begins with the number's last two bits, and is the longer the further the number is from the middle. No bits from 32 on.
#[tactic(auto, unfolding(crate::specs::Shape::spelling))]
pub fn spelling_of(number: usize) -> Spelling
    ensures { (result ≡ spelling number) × (result.bits ≤ 7) × (result.value < 256) }
{
    if 31 < number {
        return Spelling { bits: 0, value: 0 };
    }
    let number = number as u8;
    let far = from_middle(number);
    let more = more_bits(far);
    let seven = seven_of(number, far);
    Spelling {
        bits: usize::from(3 + more),
        value: usize::from(seven >> (4 - more)),
    }
}

// 1 where a step goes up by more than 16, so that its number has no word.
#[tactic(auto, unfolding(crate::specs::Shape::beyond))]
pub fn beyond(x: u8, y: u8) -> u8
    ensures { (result ≡ beyond x y) × (result ≤ 1) }
{
    if x < y { at_least(y - x, 17) } else { 0 }
}

// How far the number of the step from one index to the next is from the middle.
#[tactic(auto, unfolding(crate::specs::Shape::step_size))]
pub fn step_size(x: u8, y: u8) -> u8
    ensures { result ≡ step_size x y }
{
    if x < y { y - x - 1 } else { x - y }
}
