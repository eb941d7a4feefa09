// What stands at each of the 800 places of a frame (01, Coefficient codes; 7.6): from flags, norms and budget to rates, and from rates to kinds.

#![tactic(auto)]

ghost use Rattle.std.specs.Prelude.{◌≡◌, ◌+◌, ◌-◌, ◌<◌};
ghost use Rattle.allotment.specs.Allotment.{shares_of};
ghost use Rattle.kinds.specs.Kinds.{band_of, kind_of, kinds};
ghost use Rattle.kinds.specs.Budget.{noise_bits, all_compete, kinds_at};

// The four flags of a frame.
#[derive(Clone, Copy, Debug, PartialEq, Eq)]
pub struct Flags {
    pub transient: bool,
    pub l: bool,
    pub n: bool,
    pub c: bool,
}

// The band of a place.
#[tactic(auto, using(crate::proofs::Laws::Kinds::by_place))]
fn band_of(i: usize) -> usize
    requires { i < 800 }
    ensures { (result ≡ band_of i) × (result < 44) }
{
    match i {
        0..128 => i / 8,
        128..256 => 16 + (i - 128) / 16,
        256..544 => 24 + (i - 256) / 24,
        _ => 36 + (i - 544) / 32,
    }
}

// The kind of a place, from its band's rate.
#[tactic(auto, using(crate::proofs::Laws::Kinds::by_rate))]
fn kind_of(flag_c: bool, rate: u8, i: usize) -> u8
    ensures { result ≡ kind_of flag_c rate i }
{
    match rate {
        1 if i % 8 == 0 => 8,
        1 => 0,
        2..=5 if flag_c => rate + words::CODE_WORDS,
        _ => rate,
    }
}

// Eight places at a time: they lie in one band, and all but the first are of one kind. Kinds are numbers, as rates are: an enum of nothing, widths and
// words would be made from a rate and taken apart again for each place.
pub fn all_kinds(flag_c: bool, rates: [u8; 44]) -> [u8; 800]
    ensures { result ≡ kinds flag_c rates }
{
    let mut out = [0u8; 800];
    for group in 0..100 {
        let i = 8 * group;
        let rate = rates[band_of(i)];
        out[i..i + 8].fill(kind_of(flag_c, rate, i + 1));
        out[i] = kind_of(flag_c, rate, i);
    }
    out
}

// The noise bits: 2 if the frame is stationary.
#[tactic(auto, using(crate::proofs::Laws::Budget::noise_none, crate::proofs::Laws::Budget::noise_two))]
pub fn noise_bits(transient: bool) -> usize
    ensures { result ≡ noise_bits transient }
{
    if transient { 0 } else { 2 }
}

// Whether bands 36 to 43 compete: FlagL acts at 80 bytes alone.
#[tactic(auto, using(crate::proofs::Laws::Budget::wide_small, crate::proofs::Laws::Budget::wide_other))]
fn all_compete(end: usize, flag_l: bool) -> bool
    ensures { result ≡ all_compete end flag_l }
{
    end != 640 || flag_l
}

// The rates of the 44 bands in a body of `end` bits, from flags, norms and budget.
pub fn rates_for(flags: Flags, norms: [u8; 44], budget: u32, end: usize) -> [u8; 44]
    ensures { result ≡ (shares_of flags.transient (all_compete end flags.l) norms budget).rates }
{
    let shares = allotment::allot(flags.transient, all_compete(end, flags.l), norms, budget);
    shares.rates
}

// The kinds of the 800 places, from flags and norms whose bits end at a place.
#[tactic(auto, using(crate::proofs::Laws::Budget::kinds_made))]
pub fn kinds_for(flags: Flags, norms: [u8; 44], at: usize, end: usize) -> [u8; 800]
    requires { end < 4294967296 }
    ensures { result ≡ kinds_at flags.transient (all_compete end flags.l) flags.c norms (end - at - noise_bits flags.transient) }
{
    let budget = end
        .saturating_sub(at)
        .saturating_sub(noise_bits(flags.transient));
    let rates = rates_for(flags, norms, budget as u32, end);
    all_kinds(flags.c, rates)
}
