// Triplets for GSM phones, made at the centre of a batch of vectors (TS 33.102 §6.8.1.2; document 02, #102).
#![tactic(auto)]

ghost use Rattle.std.specs.Prelude.{◌+◌, ◌*◌, ◌≤◌, ◌≡◌, length};
ghost use Rattle.aka.specs.Layout.{most_vectors, read_vector, triplet_size, vector_size, write_triplet};
ghost use Rattle.octets.specs.Octets.{part, xor};
ghost use Rattle.aka.specs.Triplets.{convert as converted, kc_of, sizes_fit, sres_of, triplet_of, triplets_of};
ghost use Rattle.aka.specs.Refusals.{refusal_in};
ghost use Rattle.triplets.specs.Views.{converted_of};

use aka::Refusal;

// The two halves of a string, by xor.
fn folded<const N: usize>(x: &[u8]) -> [u8; N]
    requires { length x.now ≡ N + N }
    ensures { result ≡ xor (part 0 N x.now) (part N N x.now) }
{
    octets::xor(octets::array(&x[..N]), octets::array(&x[N..]))
}

// A vector is lent as the part of the batch that it is: as an array it would be copied, and the three below would be no plainer.
// c2: SRES is XRES's two halves by xor. The quarters with which XRES is padded are zeros, and change nothing.
fn sres(vector: &[u8]) -> [u8; aka::SRES_SIZE]
    requires { length vector.now ≡ vector_size }
    ensures { result ≡ sres_of (read_vector vector.now).xres }
{
    folded(&vector[aka::XRES_AT..aka::CK_AT])
}

// c3: Kc is the halves of CK and of IK, by xor.
#[tactic(auto, unfolding(aka::specs::Layout::read_vector, aka::specs::Triplets::kc_of))]
fn kc(vector: &[u8]) -> [u8; aka::KC_SIZE]
    requires { length vector.now ≡ vector_size }
    ensures { result ≡ kc_of (read_vector vector.now).ck (read_vector vector.now).ik }
{
    let ck = folded(&vector[aka::CK_AT..aka::IK_AT]);
    let ik = folded(&vector[aka::IK_AT..aka::AUTN_AT]);
    octets::xor(ck, ik)
}

// The triplet of a vector: RAND stays.
fn triplet(vector: &[u8]) -> [u8; aka::TRIPLET_SIZE]
    requires { length vector.now ≡ vector_size }
    ensures { result ≡ write_triplet (triplet_of (read_vector vector.now)) }
{
    let mut triplet = [0u8; aka::TRIPLET_SIZE];
    octets::put(&mut triplet, 0, &vector[..aka::RAND_SIZE]);
    octets::put(&mut triplet, aka::SRES_AT, &sres(vector));
    octets::put(&mut triplet, aka::KC_AT, &kc(vector));
    triplet
}

// Fills a buffer with the triplets of n vectors. By place, and not by `chunks_exact_mut`: of what was written through its pieces a proof
// keeps the length alone.
fn fill(batch: &[u8], n: usize, triplets: &mut [u8])
    requires { (n ≤ most_vectors) × (length batch.now ≡ vector_size * n) × (length triplets.old ≡ triplet_size * n) }
    ensures { triplets.new ≡ triplets_of batch.now n }
{
    for k in 0..n {
        let at = aka::VECTOR_SIZE * k;
        let made = triplet(&batch[at..at + aka::VECTOR_SIZE]);
        octets::put(triplets, aka::TRIPLET_SIZE * k, &made);
    }
}

// Whether refusal 3 does not apply.
#[tactic(auto, unfolding(aka::specs::Triplets::sizes_fit))]
fn sizes_fit(batch: usize, buffer: usize) -> bool
    ensures { result ≡ sizes_fit batch buffer }
{
    batches::is_batch(batch) && buffer == aka::TRIPLET_SIZE * (batch / aka::VECTOR_SIZE)
}

// The triplets of a batch of one to five vectors, into a buffer of their size.
#[tactic(auto, using(aka::proofs::Triplets::fits), unfolding(aka::specs::Triplets::convert))]
pub fn convert(batch: &[u8], triplets: &mut [u8]) -> Result<(), Refusal>
    ensures { converted_of (refusal_in result) triplets.new ≡ converted batch.now triplets.old }
{
    if !sizes_fit(batch.len(), triplets.len()) {
        return Err(Refusal::Length);
    }
    fill(batch, batch.len() / aka::VECTOR_SIZE, triplets);
    Ok(())
}
