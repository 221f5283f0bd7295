// The handset (document 02, #101): its answer to a challenge, from the store if RAND is repeated and else from the card. It takes three
// calls: `answer` reads the store and writes the fresh octets, `shown` shows the answer, `keep` writes the store. `clear` empties a store.
#![tactic(auto)]

ghost use Rattle.std.specs.Prelude.{◌≡◌, length};
ghost use Rattle.octets.specs.Octets.{Octets};
ghost use Rattle.functions.specs.Sets.{sets};
ghost use Rattle.aka.specs.Layout.{answer_size, write_answer};
ghost use Rattle.aka.specs.Editions.{editions};
ghost use Rattle.aka.specs.Usim.{UsimShaped, challenge};
ghost use Rattle.aka.specs.Handset.{challenged, told};
ghost use Rattle.usim_record.specs.Views.{usim_of};
ghost use Rattle.handset_store.specs.Views.{store_of, outcome_of};
ghost use Rattle.handset.specs.Views.{told_of, asked_with, unasked};

use aka::Refusal;
pub use handset_store::{Outcome, clear, keep, shown};
use handset_store::{is_accepted, lengths_right, repeats};
use usim::Usim;

// What the first call tells, besides the fresh octets: `usim` is the card's next record. AUTS is zero but with a synchronisation failure.
#[derive(Clone, Copy)]
pub struct Told {
    pub outcome: Outcome,
    pub usim: Usim,
    pub auts: [u8; aka::AUTS_SIZE],
}

// Writes RES, CK and IK to the fresh octets.
fn put_answer(
    res: [u8; aka::RES_SIZE],
    ck: [u8; aka::CK_SIZE],
    ik: [u8; aka::IK_SIZE],
    fresh: &mut [u8],
)
    requires { length fresh.old ≡ answer_size }
    ensures { fresh.new ≡ write_answer res ck ik }
{
    octets::put(fresh, 0, &res);
    octets::put(fresh, aka::ANSWER_CK_AT, &ck);
    octets::put(fresh, aka::ANSWER_IK_AT, &ik);
}

// Asks the card.
fn ask(usim: Usim, rand: &[u8], autn: &[u8], fresh: &mut [u8]) -> Told
    requires { length fresh.old ≡ answer_size }
    ensures answer { told_of result fresh.new
        ≡ asked_with (challenge editions sets (usim_of usim) rand.now autn.now) fresh.old }
    ensures shape { UsimShaped editions (usim_of usim) }
{
    let a = usim::challenge(usim, rand, autn);
    let outcome = Outcome::from(a.verdict);
    let auts = a.auts;
    if is_accepted(outcome) {
        put_answer(a.res, a.ck, a.ik, fresh);
    }
    Told {
        outcome,
        usim: a.usim,
        auts,
    }
}

// The card is not asked.
fn without_card(outcome: Outcome, usim: Usim) -> Told
    ensures { (fresh : Octets) → told_of result fresh ≡ unasked (outcome_of outcome) (usim_of usim) fresh }
{
    Told {
        outcome,
        usim,
        auts: [0; aka::AUTS_SIZE],
    }
}

// The first of three calls: the outcome of a challenge of any octets. An acceptance is written to the fresh octets.
pub fn answer(
    usim: Usim,
    held: bool,
    stored: &[u8],
    rand: &[u8],
    autn: &[u8],
    fresh: &mut [u8],
) -> Told
    ensures answer { told_of result fresh.new
        ≡ told (challenged editions sets (usim_of usim) (store_of held stored.now) rand.now autn.now
        fresh.old) }
    ensures shape { UsimShaped editions (usim_of usim) }
{
    if !lengths_right(stored.len(), rand.len(), fresh.len()) || autn.len() != aka::AUTN_SIZE {
        return without_card(Outcome::Refused(Refusal::Length.number()), usim);
    }
    if repeats(held, stored, rand) {
        return without_card(Outcome::Repeated, usim);
    }
    ask(usim, rand, autn, fresh)
}
