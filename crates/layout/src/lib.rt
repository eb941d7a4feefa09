// How the bits of a record part (01, Stored frame; 7.8): its budget, its rates, the bits of its codes, and what is left for the tail.

#![tactic(auto)]

ghost use Rattle.std.specs.Prelude.{◌≡◌, map, ◌≤◌, length};
ghost use Rattle.ground.specs.Numbered.{reply_of};
ghost use Rattle.ground.specs.Refusals.{first};
ghost use Rattle.words.specs.Tables.{coding};
ghost use Rattle.layout.specs.Fits.{fits};
ghost use Rattle.layout.specs.Parts.{plan_of, start_causes, code_causes, layout_causes, parts_of, parts_in, layout_of};

use frame::Record;
use ground::replies::{DONE, Reply};
use kinds::Flags;
use prefix::Mode;

// What a record's flags and norms say of its frame: the budget, the rates of the 44 bands, and the kinds of the 800 places.
#[derive(Clone, Copy, Debug, PartialEq, Eq)]
pub struct Plan {
    pub budget: usize,
    pub rates: [u8; 44],
    pub kinds: [u8; 800],
}

// How a frame's bits part, behind flags and norms: the budget, the rates by which it is shared, the bits of the codes, and those left for the tail.
// C reads this struct: g719_layout hands it on.
#[repr(C)]
#[derive(Clone, Copy, Debug, PartialEq, Eq)]
pub struct Parts {
    pub reply: u8,
    pub budget: u16,
    pub rates: [u8; 44],
    pub code_bits: u16,
    pub tail_bits: u16,
}

// Whether every number has a word of its kind.
pub fn all_fit(kinds: &[u8], numbers: &[u16]) -> bool
    requires { length kinds.now ≡ length numbers.now }
    ensures { result ≡ fits (map coding kinds.now) numbers.now }
{
    kinds
        .iter()
        .zip(numbers.iter())
        .all(|(kind, v)| words::has_word(*kind, *v))
}

// 8 for the mode, 10 for under 800 numbers, and what the norms say: 8, 9 or done.
pub fn start_reply(r: Record, codes: usize) -> Result<(), Reply>
    ensures { reply_of result ≡ first (start_causes r codes) }
{
    if 19 < r.mode {
        return Err(Reply::OutOfRange);
    }
    if codes < 800 {
        return Err(Reply::ShortRoom);
    }
    norms::norm_reply(r.transient, r.norms)
}

pub fn plan_of(r: Record) -> Plan
    ensures { result ≡ plan_of r }
{
    let end = usize::from(Mode(r.mode).bytes()) * 8;
    let at = 4 + norms::norm_bits(r.transient, r.flag_n, r.norms);
    let noise = kinds::noise_bits(r.transient);
    let budget = end.saturating_sub(at).saturating_sub(noise);
    let rates = kinds::rates_for(Flags::from(r), r.norms, budget as u32, end);
    Plan {
        budget,
        rates,
        kinds: kinds::all_kinds(r.flag_c, rates),
    }
}

// 12 for a code without a word, 7 for codes past the budget, else the parts.
pub fn parts_in(
    budget: usize,
    rates: [u8; 44],
    kinds: &[u8],
    numbers: &[u16],
) -> Result<Parts, Reply>
    requires { (length kinds.now ≡ length numbers.now) × (length kinds.now ≤ 800) × (budget ≤ 2560) }
    ensures said { reply_of result ≡ first (code_causes budget kinds.now numbers.now) }
    ensures parts { parts_of result ≡ parts_in budget rates kinds.now numbers.now }
{
    if !all_fit(kinds, numbers) {
        return Err(Reply::WideCode);
    }
    let n = runs::run_bits(kinds, numbers);
    if budget < n {
        return Err(Reply::PastBudget);
    }
    Ok(Parts {
        reply: DONE,
        budget: budget as u16,
        rates,
        code_bits: n as u16,
        tail_bits: (budget - n) as u16,
    })
}

// How a record's bits part: as the FlagC choice 8 for the mode, 10, the other causes of 8, 9, 12; then 7. Noise and tail are not looked at.
pub fn parts_for(r: Record, codes: &[u16]) -> Result<Parts, Reply>
    ensures said { reply_of result ≡ first (layout_causes r codes.now) }
    ensures parts { parts_of result ≡ layout_of r codes.now }
{
    start_reply(r, codes.len())?;
    let plan = plan_of(r);
    parts_in(plan.budget, plan.rates, &plan.kinds, &codes[..800])
}

// The same for C: a reply alone, or 0 with the parts.
pub fn layout(r: Record, codes: &[u16]) -> Parts
    ensures { result ≡ layout_of r codes.now }
{
    match parts_for(r, codes) {
        Ok(parts) => parts,
        Err(reply) => Parts {
            reply: reply.into(),
            budget: 0,
            rates: [0; 44],
            code_bits: 0,
            tail_bits: 0,
        },
    }
}
