// What the node is told of the card's answer, and what that makes of the desk.
ghost use Rattle.std.specs.Prelude.{◌≡◌, ℕ};
ghost use Rattle.aka.specs.Usim.{accepted as accepted_of};
ghost use Rattle.aka.specs.Vlr as node;
ghost use Rattle.usim_record.specs.Views.{answer_of as card_answer_of, verdict_of};
ghost use Rattle.vlr_record.specs.Views.{outcome_of, vlr_of};
ghost use Rattle.bench_writer.specs.Views.{reply_of};
ghost use Rattle.bench_desk.specs.Desk.{after_node, after_reject, after_sync, answer_reply, on_verdict};
ghost use Rattle.bench_desk.specs.Views.{desk_answer_of, desk_of};
ghost use Rattle.bench_ask.specs.Failures.{Failed};

use bench_desk::Desk;
use bench_writer::Reply;
use usim::{Answer, Verdict};
use vlr::{Outcome, Vlr};

// What the node says of RES: it passes, or has its cause.
#[tactic(auto, unfolding(bench_desk::specs::Desk::answer_reply))]
fn answer_reply(outcome: Outcome, sqn: u64, left: u8) -> Reply
    ensures { reply_of result ≡ answer_reply (outcome_of outcome) sqn left }
{
    match outcome {
        Outcome::Done | Outcome::Passed => Reply::Pass(sqn, left as u64),
        Outcome::Cause(number) => Reply::Cause(number as u64),
        Outcome::Refused(number) => Reply::Refused(number as u64),
    }
}

// The desk stays as it was where the node refuses.
#[tactic(auto, using(bench_desk::proofs::Refusals::refusals), unfolding(bench_desk::specs::Desk::after_node))]
fn after_node(desk: Desk, outcome: Outcome, next: Desk, reply: Reply) -> (Desk, Reply)
    ensures { desk_answer_of result ≡ after_node (desk_of desk) (outcome_of outcome) (desk_of next) (reply_of reply) }
{
    match bench_desk::node_refusal(outcome) {
        Some(number) => bench_desk::refused(desk, number),
        None => (next, reply),
    }
}

// A wrong MAC: Reject.
#[tactic(auto, unfolding(bench_desk::specs::Desk::after_reject))]
fn reject(desk: Desk, vlr: Vlr) -> (Desk, Reply)
    ensures { desk_answer_of result ≡ after_reject (desk_of desk) (node.reject (vlr_of vlr)) }
{
    let v = vlr::reject(vlr);
    let next = bench_desk::with_records(desk, desk.usim, desk.auc, v.vlr);
    after_node(desk, v.outcome, next, Reply::Mac)
}

// A synchronisation failure: Sync hands on RAND with AUTS, and the desk keeps them.
#[tactic(auto, unfolding(bench_desk::specs::Desk::after_sync))]
fn sync(desk: Desk, vlr: Vlr, auts: [u8; aka::AUTS_SIZE]) -> (Desk, Reply)
    ensures { desk_answer_of result ≡ after_sync (desk_of desk) (node.sync (vlr_of vlr) auts) }
{
    let v = vlr::sync(vlr, &auts);
    // a literal takes an array from a variable
    let rand = v.rand;
    let auts = v.auts;
    let next = Desk {
        vlr: v.vlr,
        rand,
        auts,
        ..desk
    };
    after_node(desk, v.outcome, next, Reply::Sync)
}

// A verdict other than acceptance: the node has Sync or Reject, or the card refuses.
#[tactic(auto, unfolding(bench_desk::specs::Desk::on_verdict))]
pub fn failure(desk: Desk, vlr: Vlr, answer: Answer) -> (Desk, Reply)
    requires { Failed (verdict_of answer.verdict) }
    ensures { (sqn : ℕ) → desk_answer_of result
        ≡ on_verdict (desk_of desk) (vlr_of vlr) (card_answer_of answer) sqn (verdict_of answer.verdict) }
{
    match answer.verdict {
        Verdict::Accepted(_) => unreachable!(),
        Verdict::Sync => sync(desk, vlr, answer.auts),
        Verdict::Mac => reject(desk, vlr),
        Verdict::Refused(number) => bench_desk::refused(desk, number),
    }
}

// An acceptance: the node has RES, and the card's next record is kept.
#[tactic(auto, unfolding(bench_desk::specs::Desk::on_verdict, bench_desk::specs::Desk::after_answer))]
pub fn response(desk: Desk, vlr: Vlr, answer: Answer, sqn: u64) -> (Desk, Reply)
    ensures { desk_answer_of result ≡ on_verdict (desk_of desk) (vlr_of vlr) (card_answer_of answer) sqn accepted_of }
{
    let v = vlr::answer(vlr, &answer.res);
    let next = bench_desk::with_records(desk, answer.usim, desk.auc, v.vlr);
    after_node(
        desk,
        v.outcome,
        next,
        answer_reply(v.outcome, sqn, v.vlr.held),
    )
}
