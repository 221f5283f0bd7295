// The record of the USIM (document 01: card), its places, and its answers that change nothing.
#![tactic(auto)]

ghost use Rattle.std.specs.Prelude.{◌≡◌};
ghost use Rattle.functions.specs.Challenge.{keys_of};
ghost use Rattle.functions.specs.Sets.{sets};
ghost use Rattle.aka.specs.Usim.{new_usim, valid_usim, unchanged as unchanged_of};
ghost use Rattle.aka.specs.Editions.{editions};
ghost use Rattle.usim_record.specs.Views.{usim_of, verdict_of, answer_of};

use functions::Keys;

pub mod places;

// The places of the card hold a SEQ for each index of its edition, and zeros behind them.
#[derive(Clone, Copy)]
pub struct Usim {
    pub edition: u8,
    pub keys: Keys,
    pub places: [u64; editions::PLACES],
}

// An acceptance has its SQN. A refusal has its number, and no `aka::Refusal`: `unchanged` takes any verdict.
#[derive(Clone, Copy)]
pub enum Verdict {
    Accepted(u64),
    Sync,
    Mac,
    Refused(u8),
}

// `usim` is the next record. Octets that the verdict does not give are zero.
#[derive(Clone, Copy)]
pub struct Answer {
    pub verdict: Verdict,
    pub usim: Usim,
    pub res: [u8; aka::RES_SIZE],
    pub ck: [u8; aka::CK_SIZE],
    pub ik: [u8; aka::IK_SIZE],
    pub auts: [u8; aka::AUTS_SIZE],
}

// A new USIM: all places 0.
pub fn new(edition: u8, keys: Keys) -> Usim
    ensures { usim_of result ≡ new_usim editions edition (keys_of keys) }
{
    Usim {
        edition,
        keys,
        places: [0; editions::PLACES],
    }
}

// Whether refusal 1 does not apply.
#[tactic(auto, unfolding(aka::specs::Usim::valid_usim))]
pub fn is_valid(usim: Usim) -> bool
    ensures { result ≡ valid_usim editions sets (usim_of usim) }
{
    let m = editions::row(usim.edition);
    functions::admits(usim.edition, usim.keys)
        && places::within(usim.places, m.limit)
        && places::zero_from(usim.places, m.indices as usize)
}

// An answer that changes nothing and gives no keys.
pub fn unchanged(verdict: Verdict, usim: Usim, auts: [u8; aka::AUTS_SIZE]) -> Answer
    ensures { (answer_of result ≡ unchanged_of (verdict_of verdict) (usim_of usim) auts) × (result.verdict ≡ verdict) }
{
    Answer {
        verdict,
        usim,
        res: [0; aka::RES_SIZE],
        ck: [0; aka::CK_SIZE],
        ik: [0; aka::IK_SIZE],
        auts,
    }
}
