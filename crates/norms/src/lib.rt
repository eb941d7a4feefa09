// The 44 norm indices as they stand in a frame: read, written and counted, and the FlagN choice (7.4, 8.2).

#![tactic(auto)]

ghost use Rattle.std.specs.Prelude.{◌≡◌, ◌+◌, ◌-◌, ◌≤◌, ◌<◌, leb, length, IfOk};
ghost use Rattle.ground.specs.Numbered.{number, reply_of};
ghost use Rattle.bits.specs.Bits.{view, laid};
ghost use Rattle.order.specs.SentOrder.{sent};
ghost use Rattle.norms.specs.Steps.{indices, numbers, steps_close};
ghost use Rattle.norms.specs.Part.{norm_kinds, norm_part, norm_bits};
ghost use Rattle.norms.specs.Answers.{part_of, norm_reply, word_total, answered, choice_of};
ghost use Rattle.norms.specs.Inner.{indices_of, step_total};

use ground::replies::Reply;

// The norms in band order that a norm part holds, and the place behind it.
#[derive(Clone, Copy, Debug, PartialEq, Eq)]
pub struct NormPart {
    pub next: usize,
    pub norms: [u8; 44],
}

// The indices in sent order from the numbers sent; none where one leaves 0 to 39.
fn indices_of(ws: [u16; 44]) -> Option<[u8; 44]>
    ensures { result ≡ indices_of (indices 15 ws) }
{
    let mut norms = [0u8; 44];
    let mut x: usize = 15;
    for (i, w) in ws.iter().enumerate() {
        let y = x + usize::from(*w);
        if !(15..=54).contains(&y) {
            return None;
        }
        x = y - 15;
        norms[i] = x as u8;
    }
    Some(norms)
}

// The numbers sent for indices in sent order.
fn numbers_of(ss: [u8; 44]) -> [u16; 44]
    ensures { result ≡ numbers 15 ss }
{
    let mut out = [0u16; 44];
    let mut x: u16 = 15;
    for (i, s) in ss.iter().enumerate() {
        let y = u16::from(*s);
        out[i] = (y + 15).saturating_sub(x);
        x = y;
    }
    out
}

// 5 bits for the first number, and for the others 5 bits or a norm word.
#[tactic(auto, unfolding(crate::specs::Part::norm_kinds))]
fn norm_kinds(flag_n: bool) -> [u8; 44]
    ensures { result ≡ norm_kinds flag_n }
{
    let mut kinds = [if flag_n { words::NORM_WORDS } else { 5 }; 44];
    kinds[0] = 5;
    kinds
}

// The norm part at a place, all of it before the end.
pub fn read_norms(
    s: &[u8],
    at: usize,
    end: usize,
    transient: bool,
    flag_n: bool,
) -> Result<NormPart, Reply>
    ensures { result ≡ part_of at (end - at) ((norm_part transient flag_n).read (view s.now at (end - at))) }
{
    let mut ws = [0u16; 44];
    let kinds = norm_kinds(flag_n);
    let next = short_words::read_short_words(s, at, end, &kinds, &mut ws)?;
    let ss = indices_of(ws).ok_or(Reply::NormOutside)?;
    let norms = order::band_order(transient, ss);
    Ok(NormPart { next, norms })
}

// Writes the norm part at a place, and gives how many bits it has.
pub fn write_norms(s: &mut [u8], at: usize, transient: bool, flag_n: bool, norms: [u8; 44]) -> usize
    requires { at < 4294967296 }
    ensures { (result ≡ length (norm_bits transient flag_n norms)) × (s.new ≡ laid s.old at (norm_bits transient flag_n norms)) }
{
    let kinds = norm_kinds(flag_n);
    let ws = numbers_of(order::sent_order(transient, norms));
    short_words::write_short_words(s, at, &kinds, &ws)
}

// The differences of norms in sent order: the furthest of their numbers from the middle, and how many bits their 43 words have.
#[derive(Clone, Copy)]
struct Steps {
    far: u8,
    bits: usize,
}

// One pass over indices in sent order. A difference is -15 to 16 exactly where its number is at most 15 from the middle. Each word has three bits and
// some more; for a difference over 16, which has no word, seven were counted, and they are taken off.
fn count_steps(ss: [u8; 44]) -> Steps
    ensures { (leb result.far 15 ≡ steps_close ss) × (result.bits ≡ step_total ss) × (result.bits ≤ 301) }
{
    let mut far: u8 = 0;
    let mut more: u8 = 0;
    let mut lost: u8 = 0;
    for pair in ss.windows(2) {
        let size = norm_words::step_size(pair[0], pair[1]);
        far = far.max(size);
        more += norm_words::more_bits(size);
        lost += norm_words::beyond(pair[0], pair[1]);
    }
    Steps {
        far,
        bits: 129 + usize::from(more) - 7 * usize::from(lost),
    }
}

// The differences of norms in band order.
fn steps_of(transient: bool, norms: [u8; 44]) -> Steps
    ensures { (leb result.far 15 ≡ steps_close (sent transient norms)) × (result.bits ≡ word_total transient norms) × (result.bits ≤ 301) }
{
    count_steps(order::sent_order(transient, norms))
}

// How many bits the norm part has: five for each index, or five for the first and the words of the differences.
#[tactic(auto, using(crate::proofs::Laws::Part::bits_plain, crate::proofs::Laws::Part::bits_words))]
pub fn norm_bits(transient: bool, flag_n: bool, norms: [u8; 44]) -> usize
    ensures { result ≡ length (norm_bits transient flag_n norms) }
{
    if flag_n {
        5 + steps_of(transient, norms).bits
    } else {
        220
    }
}

// How many bits the 43 words of norms have; 8 for an index over 39 or a first one over 31, then 9 for a difference outside -15 to 16.
#[tactic(auto, using(crate::proofs::Laws::Answers::by_tests))]
fn measure(transient: bool, norms: [u8; 44]) -> Result<usize, Reply>
    ensures { (reply_of result ≡ norm_reply transient norms) × IfOk result (λ bits. bits ≡ word_total transient norms) }
{
    if !ground::indices::in_range(&norms) || 31 < norms[0] {
        return Err(Reply::OutOfRange);
    }
    let Steps { far, bits } = steps_of(transient, norms);
    if 15 < far {
        return Err(Reply::FarApart);
    }
    Ok(bits)
}

// Whether norms can be written: 8 for an index over 39 or a first one over 31, then 9 for a difference outside -15 to 16.
pub fn norm_reply(transient: bool, norms: [u8; 44]) -> Result<(), Reply>
    ensures { reply_of result ≡ norm_reply transient norms }
{
    measure(transient, norms)?;
    Ok(())
}

// FlagN: 1 exactly when the 43 words total under 215 bits.
#[tactic(auto, using(crate::proofs::Laws::Answers::choice_no, crate::proofs::Laws::Answers::choice_yes))]
pub fn choose_flag_n(transient: bool, norms: [u8; 44]) -> Result<bool, Reply>
    ensures { answered result ≡ choice_of transient norms }
{
    let bits = measure(transient, norms)?;
    Ok(bits < 215)
}
