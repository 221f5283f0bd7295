// Batches of authentication vectors: the vectors written one behind the other into lent octets, and one of them found again.
#![tactic(auto)]

mod rands;
mod vectors;

ghost use Rattle.std.specs.Prelude.{◌+◌, ◌*◌, ◌≤◌, ◌<◌, ◌++◌, ◌≡◌, length, take, drop};
ghost use Rattle.functions.specs.Sets.{sets};
ghost use Rattle.octets.specs.Octets.{encode};
ghost use Rattle.aka.specs.Layout.{sqn_size, rand_size, vector_size, most_vectors, write_vector, is_batch, vector_offset, vector_part};
ghost use Rattle.aka.specs.Sequence.{width_of, limit, sqn_of};
ghost use Rattle.aka.specs.Editions.{editions};
ghost use Rattle.aka.specs.Auc.{seq_at, ind_at, vector_from, batch_from};
ghost use Rattle.batches.specs.Views.{counted_by, offset_in, start_in};

use functions::PreparedKeys;
pub use rands::Rands;
use vectors::Vector;

// What the vectors of a batch are made with: their SEQ follow `from`, and `next` is the index of the first.
#[derive(Clone, Copy, Drop)]
pub struct Series<'a> {
    pub edition: u8,
    pub keys: &'a PreparedKeys,
    pub amf: [u8; aka::AMF_SIZE],
    pub from: u64,
    pub next: u8,
}

// SQN of the vector at place k.
fn sqn_at(s: Series, k: u8) -> [u8; aka::SQN_SIZE]
    requires { s.from + 1 + k ≤ limit (width_of editions s.edition) }
    ensures { result
        ≡ encode sqn_size (
        sqn_of (width_of editions s.entry.edition) (seq_at s.entry.from k)
        (ind_at (editions.numbering s.entry.edition) (counted_by s.entry) k)
        ) }
{
    let ind = editions::index_after(s.edition, s.next, k, 0);
    tokens::sqn_octets(editions::sqn(s.edition, s.from + 1 + (k as u64), ind))
}

// The buffer stays beside its RANDs, here and at the callers: a struct with the `&mut` in it would be taken apart at each call.
// Puts the vector at place k into the batch. What stands before and behind stays.
fn put_at(s: Series, rands: Rands, k: u8, batch: &mut [u8])
    requires room { s.from + 1 + k ≤ limit (width_of editions s.edition) }
    requires lent { (k < rands.n) × (vector_size * k + vector_size ≤ length batch.old) }
    ensures { batch.new
        ≡ take (vector_size * k) batch.old
        ++ write_vector (vector_from editions sets (counted_by s.entry) s.entry.from rands.entry.octets.now k)
        ++ drop (vector_size * k + vector_size) batch.old }
{
    let v = Vector::new(s.keys, sqn_at(s, k), s.amf, rands.at(k));
    v.put(batch, aka::VECTOR_SIZE * (k as usize));
}

// Fills a buffer with the batch of these RANDs.
pub fn fill(s: Series, rands: Rands, batch: &mut [u8])
    requires room { s.from + rands.n ≤ limit (width_of editions s.edition) }
    requires lent { length batch.old ≡ vector_size * rands.n }
    ensures { batch.new ≡ batch_from editions sets (counted_by s.entry) s.entry.from rands.entry.octets.now rands.entry.n }
{
    for k in 0..rands.n {
        put_at(s, rands, k, batch);
    }
}

// Whether `size` octets are one to five whole vectors.
pub fn is_batch(size: usize) -> bool
    ensures { result ≡ is_batch size }
{
    aka::VECTOR_SIZE <= size
        && size <= aka::VECTOR_SIZE * (aka::MOST_VECTORS as usize)
        && size % aka::VECTOR_SIZE == 0
}

// Where the vector at place k begins in a batch of `size` octets; `None` stands for refusal 3.
#[tactic(auto, unfolding(aka::specs::Layout::is_place, aka::specs::Layout::vector_offset))]
pub fn offset_of(size: usize, k: u64) -> Option<usize>
    ensures { offset_in result ≡ vector_offset size k }
{
    if is_batch(size) && k < (size / aka::VECTOR_SIZE) as u64 {
        Some(aka::VECTOR_SIZE * (k as usize))
    } else {
        None
    }
}

// The vector at place k, as the part of the caller's own batch that begins at its offset; an empty part stands for refusal 3,
// and no `None`: document 01 asks for a part, and the contract says of the empty one too where it lies.
pub fn vector_at<'a>(batch: &'a [u8], k: u64) -> &'a [u8]
    ensures octets { result.now ≡ vector_part batch.now k }
    ensures place { result.ref_ptr ≡ start_in (vector_offset (length batch.now) k) batch.entry.ref_ptr }
{
    let Some(at) = offset_of(batch.len(), k) else {
        return &batch[0..0];
    };
    &batch[at..at + aka::VECTOR_SIZE]
}
