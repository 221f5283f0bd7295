// The steps of the serving node, VLR or SGSN (document 01: node): the records that follow an operation, and the answers made of them.
#![tactic(auto)]

ghost use Rattle.std.specs.Prelude.{◌≡◌, ◌*◌, ◌+◌, ◌<◌, ◌≤◌, length};
ghost use Rattle.aka.specs.Layout.{auts_size, item_size};
ghost use Rattle.aka.specs.Refusals.{number_of, refusal_in};
ghost use Rattle.aka.specs.Vlr as spec;
ghost use Rattle.vlr_places.specs.Views.{kind_of};
ghost use Rattle.vlr_record.specs.Views.{answer_of, outcome_of, state_of, vlr_of};

use aka::Refusal;
use vlr_places::Batch;
use vlr_record::{Outcome, Reply, State, Vlr, queue};

// ---- records that follow

// A batch is added behind what is held.
#[tactic(auto, unfolding(aka::specs::Vlr::queued))]
pub fn queued(vlr: Vlr, batch: Batch) -> Vlr
    requires room { vlr.held + batch.count ≤ spec.most_held }
    requires size { length batch.octets.now ≡ item_size (kind_of batch.kind) * batch.count }
    ensures { vlr_of result
        ≡ spec.queued (vlr_of vlr) batch.entry.count
        (spec.places_of (kind_of batch.entry.kind) batch.entry.octets.now batch.entry.count) }
{
    Vlr {
        held: vlr.held + (batch.count as u8),
        queue: queue::with_batch(vlr.queue, vlr.held as usize, batch),
        ..vlr
    }
}

// The oldest becomes outstanding.
#[tactic(auto, unfolding(aka::specs::Vlr::oldest_out))]
pub fn oldest_out(vlr: Vlr) -> Vlr
    requires { 0 < vlr.held }
    ensures { vlr_of result ≡ spec.oldest_out (vlr_of vlr) }
{
    Vlr {
        state: State::Asked,
        held: vlr.held - 1,
        queue: queue::without_oldest(vlr.queue),
        out: queue::oldest(vlr.queue),
    }
}

// Another state, where nothing is outstanding.
#[tactic(auto, unfolding(aka::specs::Vlr::none_out))]
pub fn none_out(state: State, vlr: Vlr) -> Vlr
    ensures { vlr_of result ≡ spec.none_out (state_of state) (vlr_of vlr) }
{
    Vlr {
        state,
        out: [0; aka::PLACE_SIZE],
        ..vlr
    }
}

// ---- answers

// No octets are given.
pub fn no_octets(outcome: Outcome, vlr: Vlr) -> Reply
    ensures { answer_of result ≡ spec.no_octets (outcome_of outcome) (vlr_of vlr) }
{
    Reply {
        outcome,
        vlr,
        rand: [0; aka::RAND_SIZE],
        autn: [0; aka::AUTN_SIZE],
        auts: [0; aka::AUTS_SIZE],
        ck: [0; aka::CK_SIZE],
        ik: [0; aka::IK_SIZE],
        kc: [0; aka::KC_SIZE],
    }
}

// Idle, with nothing outstanding; no octets are given.
pub fn to_idle(outcome: Outcome, vlr: Vlr) -> Reply
    ensures { answer_of result ≡ spec.no_octets (outcome_of outcome) (spec.none_out spec.idle (vlr_of vlr)) }
{
    no_octets(outcome, none_out(State::Idle, vlr))
}

// A refusal leaves the record.
pub fn refused(vlr: Vlr, refusal: Refusal) -> Reply
    ensures { answer_of result ≡ spec.no_octets (spec.refused (number_of refusal)) (vlr_of vlr) }
{
    no_octets(Outcome::from(refusal), vlr)
}

// The answer to a refusal's number, or, where it is 0, this one.
#[tactic(auto, unfolding(aka::specs::Vlr::unless_refused))]
pub fn unless_refused(vlr: Vlr, number: u8, reply: Reply) -> Reply
    ensures { answer_of result ≡ spec.unless_refused (vlr_of vlr) number (answer_of reply) }
{
    if number == 0 {
        return reply;
    }
    no_octets(Outcome::Refused(number), vlr)
}

// The refusal's answer, or, where there is none, this one.
#[tactic(auto, unfolding(aka::specs::Vlr::unless_refused))]
pub fn answered(vlr: Vlr, refusal: Result<(), Refusal>, reply: Reply) -> Reply
    ensures { answer_of result ≡ spec.unless_refused (vlr_of vlr) (refusal_in refusal) (answer_of reply) }
{
    match refusal {
        Ok(()) => reply,
        Err(refusal) => refused(vlr, refusal),
    }
}

// RAND and AUTN of the outstanding item are given.
#[tactic(auto, unfolding(aka::specs::Vlr::request))]
pub fn request(vlr: Vlr) -> Reply
    ensures { answer_of result ≡ spec.request (vlr_of vlr) }
{
    Reply {
        rand: vlr_places::rand(vlr.out),
        autn: vlr_places::autn(vlr.out),
        ..no_octets(Outcome::Done, vlr)
    }
}

// Whether RES is XRES or SRES of the outstanding item. It looks at all octets whatever they are.
#[tactic(auto, unfolding(aka::specs::Vlr::res_right))]
pub fn res_right(vlr: Vlr, res: &[u8]) -> bool
    requires { length res.now ≡ spec.res_size_of (spec.kind_in vlr.out) }
    ensures { result ≡ spec.res_right (vlr_of vlr) res.now }
{
    vlr_places::is_response(vlr.out, res)
}

// The keys are given where RES is right: CK and IK of a vector, Kc of a triplet.
#[tactic(auto, unfolding(aka::specs::Vlr::pass_if))]
pub fn pass_if(vlr: Vlr, right: bool) -> Reply
    ensures { answer_of result ≡ spec.pass_if (vlr_of vlr) right }
{
    if !right {
        return to_idle(Outcome::Cause(2), vlr);
    }
    Reply {
        ck: vlr_places::ck(vlr.out),
        ik: vlr_places::ik(vlr.out),
        kc: vlr_places::kc(vlr.out),
        ..to_idle(Outcome::Passed, vlr)
    }
}

// RAND of the outstanding vector is given with AUTS.
#[tactic(auto, unfolding(aka::specs::Vlr::resync_request))]
pub fn resync_request(vlr: Vlr, auts: &[u8]) -> Reply
    requires { length auts.now ≡ auts_size }
    ensures { answer_of result ≡ spec.resync_request (vlr_of vlr) auts.now }
{
    let failed = vlr.out;
    Reply {
        rand: vlr_places::rand(failed),
        auts: octets::array(auts),
        ..no_octets(Outcome::Done, none_out(State::Resyncing, vlr))
    }
}
