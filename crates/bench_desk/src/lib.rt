// The desk: one card, one centre record, one node, and the last AUTS with its RAND.
#![tactic(auto)]

ghost use Rattle.std.specs.Prelude.{◌≡◌};
ghost use Rattle.functions.specs.Challenge.{keys_of};
ghost use Rattle.aka.specs.Vlr.{refusal_of};
ghost use Rattle.usim_record.specs.Views.{usim_of};
ghost use Rattle.auc_record.specs.Views.{auc_of};
ghost use Rattle.vlr_record.specs.Views.{outcome_of, vlr_of};
ghost use Rattle.bench_desk.specs.Desk.{given_number, new_desk, put as put_of, refused_by, show as show_of, with_counters, with_records};
ghost use Rattle.bench_desk.specs.Views.{desk_answer_of, desk_of};

use auc::Auc;
use bench_writer::Reply;
use functions::Keys;
use usim::Usim;
use vlr::{Outcome, Vlr};

// The edition of the bench's records.
pub const EDITION: u8 = 1;

// `rand` and `auts` are zero when there was no AUTS. They are no Option, since a resync answers such a desk too: from the zeros.
#[derive(Clone, Copy, Drop)]
pub struct Desk {
    pub usim: Usim,
    pub auc: Auc,
    pub vlr: Vlr,
    pub rand: [u8; aka::RAND_SIZE],
    pub auts: [u8; aka::AUTS_SIZE],
}

// Everything new, with keys and AMF.
#[tactic(auto, unfolding(crate::specs::Desk::new_desk))]
pub fn new(keys: Keys, amf: [u8; aka::AMF_SIZE]) -> Desk
    ensures { desk_of result ≡ new_desk (keys_of keys) amf }
{
    Desk {
        usim: usim::new(EDITION, keys),
        auc: auc::new(EDITION, keys, amf),
        vlr: vlr::new(),
        rand: [0; aka::RAND_SIZE],
        auts: [0; aka::AUTS_SIZE],
    }
}

// Other records, and the last AUTS as it was.
#[tactic(auto, unfolding(crate::specs::Desk::with_records))]
pub fn with_records(desk: Desk, usim: Usim, auc: Auc, vlr: Vlr) -> Desk
    ensures { desk_of result ≡ with_records (desk_of desk) (usim_of usim) (auc_of auc) (vlr_of vlr) }
{
    Desk {
        usim,
        auc,
        vlr,
        ..desk
    }
}

// A refusal: card, centre and node all stay as before. Its number is any that an outcome has.
#[tactic(auto, unfolding(crate::specs::Desk::refused_by))]
pub fn refused(desk: Desk, number: u8) -> (Desk, Reply)
    ensures { desk_answer_of result ≡ refused_by (desk_of desk) number }
{
    (desk, Reply::Refused(number as u64))
}

// The number of the node's refusal. A number of 0 is no refusal.
pub fn node_refusal(outcome: Outcome) -> Option<u8>
    ensures { result ≡ given_number (refusal_of (outcome_of outcome)) }
{
    match outcome {
        Outcome::Refused(number) if number != 0 => Some(number),
        _ => None,
    }
}

// Another SEQ_HE and next index.
#[tactic(auto, unfolding(crate::specs::Desk::with_counters))]
fn with_counters(desk: Desk, seqhe: u64, next: u8) -> Desk
    ensures { desk_of result ≡ with_counters (desk_of desk) seqhe next }
{
    let auc = Auc {
        seqhe,
        next,
        ..desk.auc
    };
    with_records(desk, desk.usim, auc, desk.vlr)
}

// Another SEQ_HE and next index, within their ranges.
#[tactic(auto, unfolding(crate::specs::Desk::put, crate::specs::Desk::refused_or))]
pub fn put(desk: Desk, seqhe: u64, next: u64) -> (Desk, Reply)
    ensures { desk_answer_of result ≡ put_of (desk_of desk) seqhe next }
{
    let row = editions::row(desk.auc.edition);
    if row.limit < seqhe || row.indices <= next {
        return refused(desk, aka::Refusal::Invalid.number());
    }
    (with_counters(desk, seqhe, next as u8), Reply::PutOk)
}

// The counters of centre and card.
#[tactic(auto, unfolding(crate::specs::Desk::show))]
pub fn show(desk: Desk) -> (Desk, Reply)
    ensures { desk_answer_of result ≡ show_of (desk_of desk) }
{
    let seqms = usim_record::places::highest(desk.usim.places);
    let index = usim_record::places::lowest_index(desk.usim.places, seqms);
    let reply = Reply::Shown(desk.auc.seqhe, desk.auc.next as u64, seqms, index as u64);
    (desk, reply)
}
