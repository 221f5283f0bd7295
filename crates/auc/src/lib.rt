// The authentication centre, AuC (document 01: centre): its orders and its resynchronisation. Its record is handed on from `auc_record`,
// the vectors of a batch from `batches`.
#![tactic(auto)]

ghost use Rattle.std.specs.Prelude.{◌*◌, ◌≤◌, ◌≡◌, length};
ghost use Rattle.functions.specs.Sets.{sets};
ghost use Rattle.aka.specs.Layout.{rand_size, vector_size, most_vectors};
ghost use Rattle.aka.specs.Sequence.{width_of, limit};
ghost use Rattle.aka.specs.Editions.{editions};
ghost use Rattle.aka.specs.Auc.{AucShaped, order as order_of, resync, refusal_of, lent_auts};
ghost use Rattle.aka.specs.Auc.{unless_past, answer_with, resync_from, auts_outcome};
ghost use Rattle.auc_record.specs.Views.{auc_of, outcome_of, answer_of};

use aka::Refusal;
pub use auc_record::{Answer, Auc, Outcome, is_valid, new};
use batches::{Rands, Series};
pub use batches::{offset_of, vector_at};
use functions::PreparedKeys;
use resynchronisation::Ruling;

// The batch of these RANDs whose SEQ follow `from`, unless the last passes the limit: refusal 6. `outcome` is that of the batch.
fn generate(
    keys: &PreparedKeys,
    outcome: Outcome,
    auc: Auc,
    from: u64,
    rands: Rands,
    batch: &mut [u8],
) -> Answer
    requires made { keys.now.keys ≡ auc.keys }
    requires room { from ≤ limit (width_of editions auc.edition) }
    requires lent { length batch.old ≡ vector_size * rands.n }
    requires given { refusal_of (outcome_of outcome) ≡ 0 }
    ensures { answer_of result batch.new
        ≡ answer_with editions sets (auc_of auc) from rands.entry.octets.now rands.entry.n batch.old
        (unless_past editions sets (auc_of auc) from rands.entry.n (outcome_of outcome)) }
{
    let m = editions::row(auc.edition);
    if m.limit < from + (rands.n as u64) {
        return auc_record::refused(Refusal::Limit.into(), auc);
    }
    // An array goes into a literal under a name.
    let amf = auc.amf;
    let s = Series {
        edition: auc.edition,
        keys,
        amf,
        from,
        next: auc.next,
    };
    batches::fill(s, rands, batch);
    Answer {
        outcome,
        n: rands.n,
        auc: auc_record::after_batch(auc, from, rands.n),
    }
}

// The AuC's whole answer to an order.
pub fn order(auc: Auc, count: u64, rands: &[u8], batch: &mut [u8]) -> Answer
    ensures answer { answer_of result batch.new ≡ order_of editions sets (auc_of auc) count rands.now batch.old }
    ensures shape { AucShaped (auc_of auc) }
{
    match auc_record::check(auc, aka::DEFAULT_COUNT, count, rands, batch.len(), true) {
        Err(outcome) => auc_record::refused(outcome, auc),
        Ok(n) => {
            let keys = PreparedKeys::new(auc.keys);
            let rands = Rands { octets: rands, n };
            generate(&keys, Outcome::Given, auc, auc.seqhe, rands, batch)
        }
    }
}

// The answer to RAND and AUTS, where refusals 1 to 4 do not apply.
fn resume(
    auc: Auc,
    rand: [u8; aka::RAND_SIZE],
    auts: [u8; aka::AUTS_SIZE],
    rands: Rands,
    batch: &mut [u8],
) -> Answer
    requires room { auc.seqhe ≤ limit (width_of editions auc.edition) }
    requires lent { length batch.old ≡ vector_size * rands.n }
    ensures { answer_of result batch.new
        ≡ answer_with editions sets (auc_of auc) (resync_from editions sets (auc_of auc) rand auts rands.entry.n) rands.entry.octets.now
        rands.entry.n batch.old (auts_outcome editions sets (auc_of auc) rand auts rands.entry.n) }
{
    let keys = PreparedKeys::new(auc.keys);
    match resynchronisation::decide(&keys, auc.edition, rand, auts, auc.seqhe, rands.n) {
        Ok(Ruling::Kept(from)) => generate(&keys, Outcome::Kept, auc, from, rands, batch),
        Ok(Ruling::Reset(from)) => generate(&keys, Outcome::Reset, auc, from, rands, batch),
        Err(refused) => auc_record::refused(refused.refusal.into(), auc),
    }
}

// Whether RAND and AUTS have their lengths.
#[tactic(auto, unfolding(aka::specs::Auc::lent_auts))]
fn auts_fits(rand: &[u8], auts: &[u8]) -> bool
    ensures { result ≡ lent_auts (length rand.now) (length auts.now) }
{
    rand.len() == aka::RAND_SIZE && auts.len() == aka::AUTS_SIZE
}

// The AuC's whole answer to a resynchronisation, with RAND and AUTS of the synchronisation failure.
pub fn resynchronise(
    auc: Auc,
    count: u64,
    rand: &[u8],
    auts: &[u8],
    rands: &[u8],
    batch: &mut [u8],
) -> Answer
    ensures answer { answer_of result batch.new
        ≡ resync editions sets (auc_of auc) count rands.now batch.old rand.now auts.now }
    ensures shape { AucShaped (auc_of auc) }
{
    let lent = auts_fits(rand, auts);
    match auc_record::check(auc, aka::DEFAULT_COUNT, count, rands, batch.len(), lent) {
        Err(outcome) => auc_record::refused(outcome, auc),
        Ok(n) => {
            let rands = Rands { octets: rands, n };
            resume(auc, octets::array(rand), octets::array(auts), rands, batch)
        }
    }
}
