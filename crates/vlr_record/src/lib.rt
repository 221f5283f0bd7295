// The record of the serving node, VLR or SGSN (document 01: node), the tests on it, and the octets in it.
#![tactic(auto)]

pub mod queue;

ghost use Rattle.std.specs.Prelude.{◌≡◌, ◌+◌, leb};
ghost use Rattle.aka.specs.Vlr as spec;
ghost use Rattle.aka.specs.Refusals.{number_of};
ghost use Rattle.vlr_record.specs.Views.{state_of, vlr_of};
ghost use Rattle.vlr_record.specs.declared.Outcome.TheVariants.{Refused};

use aka::Refusal;
use queue::Queue;
use vlr_places::Place;
pub use vlr_places::{Batch, Kind};

// Asked: a request is not answered yet. Resyncing: a synchronisation failure was handed on.
#[derive(Clone, Copy, PartialEq, Eq)]
pub enum State {
    Idle,
    Asked,
    Resyncing,
}

impl State {
    pub fn is_idle(self) -> bool
        ensures { result ≡ spec.is_idle (state_of self) }
    {
        self == State::Idle
    }

    pub fn is_asked(self) -> bool
        ensures { result ≡ spec.is_asked (state_of self) }
    {
        self == State::Asked
    }

    pub fn is_resyncing(self) -> bool
        ensures { result ≡ spec.is_resyncing (state_of self) }
    {
        self == State::Resyncing
    }
}

// `queue` has the `held` places in use, oldest first, then zeros; `out` is the outstanding place, zeros when none. No ghost field says so:
// a record that is not so is refused with 1, and may be lent.
#[derive(Clone, Copy)]
pub struct Vlr {
    pub state: State,
    pub held: u8,
    pub queue: Queue,
    pub out: Place,
}

// A cause and a refusal have their numbers: `vlr_steps::no_octets` takes an outcome from its caller, and an enum in place of the numbers
// would ask more of it.
#[derive(Clone, Copy, PartialEq, Eq)]
pub enum Outcome {
    Done,
    Passed,
    Cause(u8),
    Refused(u8),
}

impl From<Refusal> for Outcome {
    ghost from_gives = { λ refusal outcome. outcome ≡ Refused (number_of refusal) };

    fn from(refusal: Refusal) -> Outcome {
        Outcome::Refused(refusal.number())
    }
}

// `vlr` is the next record. Octets that the outcome does not give are zero.
#[derive(Clone, Copy)]
pub struct Reply {
    pub outcome: Outcome,
    pub vlr: Vlr,
    pub rand: [u8; aka::RAND_SIZE],
    pub autn: [u8; aka::AUTN_SIZE],
    pub auts: [u8; aka::AUTS_SIZE],
    pub ck: [u8; aka::CK_SIZE],
    pub ik: [u8; aka::IK_SIZE],
    pub kc: [u8; aka::KC_SIZE],
}

// A new node: Idle, nothing held.
pub fn new() -> Vlr
    ensures { vlr_of result ≡ spec.new_vlr }
{
    Vlr {
        state: State::Idle,
        held: 0,
        queue: [0; aka::QUEUE_SIZE],
        out: [0; aka::PLACE_SIZE],
    }
}

// ---- tests

// Whether refusal 1 does not apply.
#[tactic(auto, unfolding(aka::specs::Vlr::valid_vlr))]
pub fn is_valid(vlr: Vlr) -> bool
    ensures { result ≡ spec.valid_vlr (vlr_of vlr) }
{
    let held = vlr.held as usize;
    held <= aka::MOST_HELD
        && queue::are_good(vlr.queue, held)
        && queue::is_unused(vlr.queue, held)
        && match vlr.state {
            State::Asked => vlr_places::is_good(&vlr.out),
            State::Idle | State::Resyncing => vlr_places::all_zero(&vlr.out),
        }
}

// Whether there is room for `count` items more.
pub fn has_room(held: u8, count: u64) -> bool
    ensures { result ≡ leb (held + count) spec.most_held }
{
    count.saturating_add(held as u64) <= aka::MOST_HELD as u64
}
