// Order and resync at the desk: a batch of the centre goes to the node.
#![tactic(auto)]

ghost use Rattle.std.specs.Prelude.{◌≡◌};
ghost use Rattle.octets.specs.Octets.{Octets};
ghost use Rattle.aka.specs.Auc as centre;
ghost use Rattle.auc_record.specs.Views.{answer_of as auc_answer_of, outcome_of as auc_outcome_of};
ghost use Rattle.vlr_record.specs.Views.{answer_of as vlr_answer_of};
ghost use Rattle.bench_writer.specs.Views.{reply_of};
ghost use Rattle.bench_desk.specs.Desk.{given_number, order as order_of, order_answer, resync as resync_of, resync_answer};
ghost use Rattle.bench_desk.specs.Desk.{resync_reply, with_batch};
ghost use Rattle.bench_desk.specs.Views.{desk_answer_of, desk_of};

use bench_desk::Desk;
use bench_writer::Reply;
use vlr::Kind;

// The number of the centre's refusal. A number of 0 is no refusal.
fn centre_refusal(outcome: auc::Outcome) -> Option<u8>
    ensures { result ≡ given_number (centre.refusal_of (auc_outcome_of outcome)) }
{
    match outcome {
        auc::Outcome::Refused(number) if number != 0 => Some(number),
        auc::Outcome::Repeated(_, _) => Some(aka::Refusal::SameRand.number()),
        _ => None,
    }
}

// Both records go on; where one side refuses, the desk stays, and the centre's refusal is told first.
#[tactic(auto, using(bench_desk::proofs::Refusals::refusals), unfolding(bench_desk::specs::Desk::with_batch))]
fn with_batch(desk: Desk, a: auc::Answer, v: vlr::Reply, reply: Reply) -> (Desk, Reply)
    ensures { (batch : Octets) → desk_answer_of result
        ≡ with_batch (desk_of desk) (auc_answer_of a batch) (vlr_answer_of v) (reply_of reply) }
{
    if let Some(first) = centre_refusal(a.outcome) {
        return bench_desk::refused(desk, first);
    }
    if let Some(second) = bench_desk::node_refusal(v.outcome) {
        return bench_desk::refused(desk, second);
    }
    (
        bench_desk::with_records(desk, desk.usim, a.auc, v.vlr),
        reply,
    )
}

// An order: the vectors given go to the node by Store.
#[tactic(auto, using(crate::proofs::Batches::order_is), unfolding(bench_desk::specs::Desk::order_answer))]
pub fn order(desk: Desk, count: u8, rands: &[u8], batch: &mut [u8]) -> (Desk, Reply)
    ensures answer { desk_answer_of result ≡ order_of (desk_of desk) count rands.now batch.old }
    ensures batch { batch.new ≡ (order_answer (desk_of desk) count rands.now batch.old).batch }
{
    let a = auc::order(desk.auc, count as u64, rands, batch);
    let v = vlr::store(desk.vlr, Kind::Vector, a.n as u64, batch);
    with_batch(desk, a, v, Reply::Stored(a.n as u64, v.vlr.held as u64))
}

// What a resync prints: kept or reset.
#[tactic(auto, unfolding(bench_desk::specs::Desk::resync_reply))]
fn resync_reply(outcome: auc::Outcome, n: u64, held: u64) -> Reply
    ensures { reply_of result ≡ resync_reply (auc_outcome_of outcome) n held }
{
    match outcome {
        auc::Outcome::Given => Reply::Stored(n, held),
        auc::Outcome::Kept => Reply::Kept(n, held),
        auc::Outcome::Reset => Reply::Reset(n, held),
        auc::Outcome::Refused(number) => Reply::Refused(number as u64),
        auc::Outcome::Repeated(_, _) => Reply::Refused(aka::Refusal::SameRand.number() as u64),
    }
}

// A resync with the last AUTS and its RAND: the vectors given go to the node by Renew.
#[tactic(auto, using(crate::proofs::Batches::resync_is), unfolding(bench_desk::specs::Desk::resync_answer))]
pub fn resync(desk: Desk, count: u8, rands: &[u8], batch: &mut [u8]) -> (Desk, Reply)
    ensures answer { desk_answer_of result ≡ resync_of (desk_of desk) count rands.now batch.old }
    ensures batch { batch.new ≡ (resync_answer (desk_of desk) count rands.now batch.old).batch }
{
    let a = auc::resynchronise(desk.auc, count as u64, &desk.rand, &desk.auts, rands, batch);
    let v = vlr::renew(desk.vlr, Kind::Vector, a.n as u64, batch);
    let reply = resync_reply(a.outcome, a.n as u64, v.vlr.held as u64);
    with_batch(desk, a, v, reply)
}
