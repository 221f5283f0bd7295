// The serving node, VLR or SGSN (document 01: node): its answer to each of its operations. Its record is handed on from `vlr_record`.
#![tactic(auto)]

ghost use Rattle.std.specs.Prelude.{◌≡◌};
ghost use Rattle.aka.specs.Vlr as spec;
ghost use Rattle.vlr_places.specs.Views.{kind_of};
ghost use Rattle.vlr_record.specs.Views.{answer_of, vlr_of};

use vlr_places::Batch;
pub use vlr_places::Kind;
pub use vlr_record::{Outcome, Reply, State, Vlr, is_valid, new};
use vlr_refusals::{
    answer_refusal, ask_refusal, asked_refusal, renew_refusal, store_refusal, sync_refusal,
    timeout_refusal,
};
use vlr_steps::{
    answered, no_octets, oldest_out, pass_if, queued, refused, request, res_right, resync_request,
    to_idle,
};

// Store (not in Resyncing) adds a batch behind.
#[tactic(auto, using(vlr_refusals::proofs::Refusals::store_fits), unfolding(aka::specs::Vlr::store, aka::specs::Vlr::unless_refused))]
pub fn store(vlr: Vlr, kind: Kind, count: u64, batch: &[u8]) -> Reply
    ensures { answer_of result ≡ spec.store (vlr_of vlr) (kind_of kind) count batch.now }
{
    let batch = Batch {
        kind,
        count,
        octets: batch,
    };
    match store_refusal(vlr, batch) {
        Ok(()) => no_octets(Outcome::Done, queued(vlr, batch)),
        Err(refusal) => refused(vlr, refusal),
    }
}

// Ask (Idle) takes the oldest, vector or triplet.
#[tactic(auto, using(vlr_refusals::proofs::Refusals::ask_held), unfolding(aka::specs::Vlr::ask, aka::specs::Vlr::unless_refused))]
pub fn ask(vlr: Vlr) -> Reply
    ensures { answer_of result ≡ spec.ask (vlr_of vlr) }
{
    match ask_refusal(vlr) {
        Ok(()) => request(oldest_out(vlr)),
        Err(refusal) => refused(vlr, refusal),
    }
}

// Again (Asked) gives the same RAND and AUTN.
#[tactic(auto, unfolding(aka::specs::Vlr::again, aka::specs::Vlr::unless_refused))]
pub fn again(vlr: Vlr) -> Reply
    ensures { answer_of result ≡ spec.again (vlr_of vlr) }
{
    answered(vlr, asked_refusal(vlr, true), request(vlr))
}

// Answer (Asked): RES equal to XRES passes with CK and IK; on a triplet, to SRES with Kc.
#[tactic(auto, using(vlr_refusals::proofs::Refusals::asked_sized), unfolding(aka::specs::Vlr::answer, aka::specs::Vlr::unless_refused))]
pub fn answer(vlr: Vlr, res: &[u8]) -> Reply
    ensures { answer_of result ≡ spec.answer (vlr_of vlr) res.now }
{
    match answer_refusal(vlr, res.len()) {
        Ok(()) => pass_if(vlr, res_right(vlr, res)),
        Err(refusal) => refused(vlr, refusal),
    }
}

// Reject (Asked): the USIM found MAC wrong.
#[tactic(auto, unfolding(aka::specs::Vlr::reject, aka::specs::Vlr::unless_refused))]
pub fn reject(vlr: Vlr) -> Reply
    ensures { answer_of result ≡ spec.reject (vlr_of vlr) }
{
    answered(
        vlr,
        asked_refusal(vlr, true),
        to_idle(Outcome::Cause(1), vlr),
    )
}

// Sync (Asked, and a vector is out) gives RAND with AUTS, for the AuC.
#[tactic(auto, using(vlr_refusals::proofs::Refusals::sync_length), unfolding(aka::specs::Vlr::sync, aka::specs::Vlr::unless_refused))]
pub fn sync(vlr: Vlr, auts: &[u8]) -> Reply
    ensures { answer_of result ≡ spec.sync (vlr_of vlr) auts.now }
{
    match sync_refusal(vlr, auts) {
        Ok(()) => resync_request(vlr, auts),
        Err(refusal) => refused(vlr, refusal),
    }
}

// Renew (Resyncing) drops all that is held and stores the batch.
#[tactic(auto, using(vlr_refusals::proofs::Refusals::renew_fits), unfolding(aka::specs::Vlr::renew, aka::specs::Vlr::unless_refused))]
pub fn renew(vlr: Vlr, kind: Kind, count: u64, batch: &[u8]) -> Reply
    ensures { answer_of result ≡ spec.renew (vlr_of vlr) (kind_of kind) count batch.now }
{
    let batch = Batch {
        kind,
        count,
        octets: batch,
    };
    match renew_refusal(vlr, batch) {
        Ok(()) => no_octets(Outcome::Done, queued(vlr_record::new(), batch)),
        Err(refusal) => refused(vlr, refusal),
    }
}

// Timeout (Resyncing): Idle, what is held is kept.
#[tactic(auto, unfolding(aka::specs::Vlr::timeout, aka::specs::Vlr::unless_refused))]
pub fn timeout(vlr: Vlr) -> Reply
    ensures { answer_of result ≡ spec.timeout (vlr_of vlr) }
{
    answered(vlr, timeout_refusal(vlr), to_idle(Outcome::Done, vlr))
}

// Abandon (Asked): Idle.
#[tactic(auto, unfolding(aka::specs::Vlr::abandon, aka::specs::Vlr::unless_refused))]
pub fn abandon(vlr: Vlr) -> Reply
    ensures { answer_of result ≡ spec.abandon (vlr_of vlr) }
{
    answered(vlr, asked_refusal(vlr, true), to_idle(Outcome::Done, vlr))
}
