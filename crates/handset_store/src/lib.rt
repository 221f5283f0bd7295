// The store in which a handset keeps its last answer (document 02, #101): the answer shown from it, kept in it, cleared from it. Voice and
// data have a store each, and a call works on the one that it is lent: its mark, and its octets, RAND and behind it the answer.
#![tactic(auto)]

ghost use Rattle.std.specs.Prelude.{◌≤◌, ◌&&◌, ◌≡◌, eqb, length};
ghost use Rattle.aka.specs.Layout.{rand_size, answer_size, store_size};
ghost use Rattle.aka.specs.Handset as spec;
ghost use Rattle.usim_record.specs.Views.{verdict_of};
ghost use Rattle.handset_store.specs.Views.{store_of, outcome_of, is_accepted, source_in, start_of, written_of};

use aka::Refusal;
use usim_record::Verdict;

// The stored answer once more, or what the card says. A refusal has its number, and no `aka::Refusal`: `shown` and `keep` take any outcome.
#[derive(Clone, Copy, PartialEq, Eq)]
pub enum Outcome {
    Repeated,
    Accepted,
    Sync,
    Mac,
    Refused(u8),
}

// The card's verdict, handed on. Its SQN is not for the handset.
impl From<Verdict> for Outcome {
    ghost from_gives = { λ verdict outcome. outcome_of outcome ≡ spec.handed_on (verdict_of verdict) };

    fn from(verdict: Verdict) -> Outcome {
        match verdict {
            Verdict::Accepted(_) => Outcome::Accepted,
            Verdict::Sync => Outcome::Sync,
            Verdict::Mac => Outcome::Mac,
            Verdict::Refused(number) => Outcome::Refused(number),
        }
    }
}

// Where the answer lies that is shown.
enum Source {
    Stored,
    Fresh,
}

pub fn is_accepted(outcome: Outcome) -> bool
    ensures { result ≡ is_accepted (outcome_of outcome) }
{
    matches!(outcome, Outcome::Accepted)
}

// Whether the stored octets, RAND and the fresh octets have the lengths named.
pub fn lengths_right(stored: usize, rand: usize, fresh: usize) -> bool
    ensures { result ≡ (eqb stored store_size && eqb rand rand_size && eqb fresh answer_size) }
{
    stored == aka::STORE_SIZE && rand == aka::RAND_SIZE && fresh == aka::ANSWER_SIZE
}

// Whether the store holds this RAND.
#[tactic(auto, unfolding(aka::specs::Handset::repeats))]
pub fn repeats(held: bool, stored: &[u8], rand: &[u8]) -> bool
    requires { (rand_size ≤ length stored.now) × (length rand.now ≡ rand_size) }
    ensures { result ≡ spec.repeats (store_of held stored.now) rand.now }
{
    held && octets::equal(&stored[..aka::RAND_SIZE], rand)
}

// By the outcome, and by whether RAND is the stored one.
fn source_of(outcome: Outcome, same: bool) -> Option<Source>
    ensures { source_in result ≡ spec.source_of (outcome_of outcome) same }
{
    match outcome {
        Outcome::Repeated | Outcome::Accepted if same => Some(Source::Stored),
        Outcome::Accepted => Some(Source::Fresh),
        _ => None,
    }
}

// Where the answer lies; nowhere, where a length is wrong. Mark, stored octets, RAND and fresh octets come one by one: callers lend them
// apart, two of the three calls write one of them, and a struct would serve this function alone.
#[tactic(auto, using(aka::proofs::Handset::parts_known), unfolding(aka::specs::Handset::source, aka::specs::Handset::parts_right))]
fn find_source(
    outcome: Outcome,
    held: bool,
    stored: &[u8],
    rand: &[u8],
    fresh: &[u8],
) -> Option<Source>
    ensures { source_in result ≡ spec.source (outcome_of outcome) (store_of held stored.now) rand.now fresh.now }
{
    if !lengths_right(stored.len(), rand.len(), fresh.len()) {
        return None;
    }
    source_of(outcome, repeats(held, stored, rand))
}

// The second of three calls: the answer to a challenge, as a part of the caller's own stored octets, where RAND is the stored one, or else
// of the fresh ones. It is empty after a failure or a refusal, and where a length is wrong.
pub fn shown<'a>(
    outcome: Outcome,
    held: bool,
    stored: &'a [u8],
    rand: &[u8],
    fresh: &'a [u8],
) -> &'a [u8]
    ensures octets { result.now ≡ spec.shown (outcome_of outcome) (store_of held stored.now) rand.now fresh.now }
    ensures place { result.ref_ptr
        ≡ start_of (spec.source (outcome_of outcome) (store_of held stored.now) rand.now fresh.now)
        stored.entry.ref_ptr fresh.entry.ref_ptr }
{
    match find_source(outcome, held, stored, rand, fresh) {
        Some(Source::Stored) => &stored[aka::ANSWER_AT..],
        Some(Source::Fresh) => fresh,
        None => &fresh[..0],
    }
}

// The last of three calls: an acceptance is kept, RAND and behind it the answer. Any other outcome leaves the store as it was. It answers
// the store's mark; a refusal leaves the mark as it was.
#[tactic(auto, using(aka::proofs::Handset::parts_known), unfolding(aka::specs::Handset::keep, aka::specs::Handset::parts_right))]
pub fn keep(
    outcome: Outcome,
    held: bool,
    stored: &mut [u8],
    rand: &[u8],
    fresh: &[u8],
) -> Result<bool, Refusal>
    ensures { written_of result held stored.new
        ≡ spec.keep (outcome_of outcome) (store_of held stored.old) rand.now fresh.now }
{
    if !lengths_right(stored.len(), rand.len(), fresh.len()) {
        return Err(Refusal::Length);
    }
    if !is_accepted(outcome) {
        return Ok(held);
    }
    octets::put(stored, 0, rand);
    octets::put(stored, aka::ANSWER_AT, fresh);
    Ok(true)
}

// The security mode command came, or the connection was lost: nothing is held, and all octets are zero. It answers as `keep` does.
#[tactic(auto, using(octets::proofs::PartByPart::put_whole), unfolding(aka::specs::Handset::clear))]
pub fn clear(held: bool, stored: &mut [u8]) -> Result<bool, Refusal>
    ensures { written_of result held stored.new ≡ spec.clear (store_of held stored.old) }
{
    if stored.len() != aka::STORE_SIZE {
        return Err(Refusal::Length);
    }
    octets::put(stored, 0, &[0u8; aka::STORE_SIZE]);
    Ok(false)
}
