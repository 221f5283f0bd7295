// The record of the authentication centre, AuC (document 01: centre), the refusals that order and resynchronisation share,
// and the record that a batch leaves.
#![tactic(auto)]

mod pairs;

ghost use Rattle.std.specs.Prelude.{◌+◌, ◌≤◌, ◌&&◌, ◌≡◌};
ghost use Rattle.octets.specs.Octets.{Octets};
ghost use Rattle.functions.specs.Challenge.{keys_of};
ghost use Rattle.functions.specs.Sets.{sets};
ghost use Rattle.aka.specs.Layout.{most_vectors};
ghost use Rattle.aka.specs.Sequence.{width_of, limit};
ghost use Rattle.aka.specs.Editions.{editions};
ghost use Rattle.aka.specs.Refusals.{number_of};
ghost use Rattle.aka.specs.Auc.{new_auc, valid_auc, count_of, lent_for, after_batch, refused_with};
ghost use Rattle.auc_record.specs.declared.Outcome.TheVariants.{Refused};
ghost use Rattle.auc_record.specs.Views.{auc_of, outcome_of, answer_of};
ghost use Rattle.auc_record.specs.Checks.{Found, first_refusals};

use aka::Refusal;
use functions::Keys;

// `seqhe` is SEQ_HE, `next` the next index.
#[derive(Clone, Copy, Drop)]
pub struct Auc {
    pub edition: u8,
    pub keys: Keys,
    pub amf: [u8; aka::AMF_SIZE],
    pub seqhe: u64,
    pub next: u8,
}

// A batch: of an order, or of a resynchronisation that kept SEQ_HE or reset it. A refusal has its number; refusal 4 has its pair.
// The number is any octet, and no `Refusal`: callers hand outcomes in, and `refused` answers each of them as it is.
#[derive(Clone, Copy, Drop)]
pub enum Outcome {
    Given,
    Kept,
    Reset,
    Refused(u8),
    Repeated(u8, u8),
}

// `n` is the number of vectors given, `auc` the next record.
#[derive(Clone, Copy, Drop)]
pub struct Answer {
    pub outcome: Outcome,
    pub n: u8,
    pub auc: Auc,
}

impl From<Refusal> for Outcome {
    ghost from_gives = { λ refusal outcome. outcome ≡ Refused (number_of refusal) };

    fn from(refusal: Refusal) -> Outcome {
        Outcome::Refused(refusal.number())
    }
}

// A new record: SEQ_HE and the next index are 0.
pub fn new(edition: u8, keys: Keys, amf: [u8; aka::AMF_SIZE]) -> Auc
    ensures { auc_of result ≡ new_auc edition (keys_of keys) amf }
{
    Auc {
        edition,
        keys,
        amf,
        seqhe: 0,
        next: 0,
    }
}

// Whether refusal 1 does not apply.
#[tactic(auto, unfolding(aka::specs::Auc::valid_auc))]
pub fn is_valid(auc: Auc) -> bool
    ensures { result ≡ valid_auc editions sets (auc_of auc) }
{
    let m = editions::row(auc.edition);
    functions::admits(auc.edition, auc.keys)
        && auc.seqhe <= m.limit
        && (auc.next as u64) < m.indices
}

// The answer of a refusal: record and buffer stay as they are.
pub fn refused(outcome: Outcome, auc: Auc) -> Answer
    ensures { (buffer : Octets) → answer_of result buffer ≡ refused_with editions sets (auc_of auc) buffer (outcome_of outcome) }
{
    Answer { outcome, n: 0, auc }
}

// The record after a batch of n vectors whose SEQ follow `from`.
pub fn after_batch(auc: Auc, from: u64, n: u8) -> Auc
    requires { from + n ≤ limit (width_of editions auc.edition) }
    ensures { auc_of result ≡ after_batch (editions.numbering auc.edition) (auc_of auc) from n }
{
    Auc {
        seqhe: from + (n as u64),
        next: editions::index_after(auc.edition, auc.next, n, 1),
        ..auc
    }
}

// A count of 0 means the default.
fn count_of(default: u8, count: u64) -> u8
    requires { count ≤ most_vectors }
    ensures { result ≡ count_of default count }
{
    if count == 0 { default } else { count as u8 }
}

// Whether each lent part has its length for n vectors: RANDs, buffer, and by `lent` whatever else is lent.
#[tactic(auto, unfolding(aka::specs::Auc::lent_for))]
fn lent_for(n: u8, rands: usize, buffer: usize, lent: bool) -> bool
    ensures { result ≡ (lent_for n rands buffer && lent) }
{
    rands == aka::RAND_SIZE * (n as usize) && buffer == aka::VECTOR_SIZE * (n as usize) && lent
}

// Refusals 1 to 4: the outcome where one of them applies, else the count that results. `size` is the length of the buffer; `lent`: whatever
// else is lent has its length.
pub fn check(
    auc: Auc,
    default: u8,
    count: u64,
    rands: &[u8],
    size: usize,
    lent: bool,
) -> Result<u8, Outcome>
    ensures { Found (first_refusals (auc_of auc) default count rands.now size lent) (count_of default count) result }
{
    if !is_valid(auc) {
        return Err(Refusal::Invalid.into());
    }
    if aka::MOST_VECTORS < count {
        return Err(Refusal::Count.into());
    }
    let n = count_of(default, count);
    if !lent_for(n, rands.len(), size, lent) {
        return Err(Refusal::Length.into());
    }
    match pairs::equal_pair(rands, n) {
        Some((i, j)) => Err(Outcome::Repeated(i, j)),
        None => Ok(n),
    }
}
