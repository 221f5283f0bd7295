// The C interface: the calls that programs in C and Rust link (include/vetrhoss.h). Records are lent as their packed images; an image is
// read first, and what its reading refuses is the call's answer. A call returns one number: the low 8 bits are 0, a refusal's number or a
// failure's cause, and the rest is the value that goes with it. Below each call is the function that it stands for, whose refusals are
// errors: `returned` makes the number.
#![tactic(auto)]

ghost use Rattle.std.specs.Prelude.{◌≡◌, IfOk};
ghost use Rattle.functions.specs.Challenge.{keys_of};
ghost use Rattle.aka.specs.Refusals.{refusal_in};
ghost use Rattle.interface_answers.specs.Results.{returned_of};
ghost use Rattle.vetrhoss.specs.Interface.{new_keys_refusal, opc_call, new_usim_call, new_auc_call, challenge_call};
ghost use Rattle.vetrhoss.specs.Interface.{order_call, resync_call, vector_at_call, triplets_call};

use aka::Refusal;
use functions::Keys;
use interface_answers::{auc_answer, buffers, results, usim_answer};
use usim::Verdict;

// OPc of K and OP.
#[unsafe(no_mangle)]
pub extern "C" fn vetrhoss_opc(k: &[u8], op: &[u8], opc: &mut [u8]) -> u64
    ensures { record { result = result; octets = opc.new } ≡ opc_call k.now op.now opc.old }
{
    results::returned(derive_opc(k, op, opc))
}

#[tactic(auto, using(interface_answers::proofs::Sizes::key_sizes), unfolding(crate::specs::Interface::opc_call))]
fn derive_opc(k: &[u8], op: &[u8], opc: &mut [u8]) -> Result<u64, Refusal>
    ensures { record { result = returned_of result; octets = opc.new } ≡ opc_call k.now op.now opc.old }
{
    if !buffers::are_keys(k, op) || opc.len() != aka::KEY_SIZE {
        return Err(Refusal::Length);
    }
    opc.copy_from_slice(&milenage::opc::derive(octets::array(k), octets::array(op)));
    Ok(0)
}

// The keys of a new record, whose edition is known too. Edition, set, K and OPc stand apart, as C lends them.
#[tactic(auto, unfolding(crate::specs::Interface::new_keys_refusal))]
fn new_keys(edition: u8, set: u8, k: &[u8], opc: &[u8]) -> Result<Keys, Refusal>
    ensures refusal { refusal_in result ≡ new_keys_refusal edition set k.now opc.now }
    ensures keys { IfOk result (λ keys. keys_of keys ≡ record { set = set; k = k.now; opc = opc.now }) }
{
    if !editions::is_known(edition) || !functions::is_known(set) {
        return Err(Refusal::Invalid);
    }
    if !buffers::are_keys(k, opc) {
        return Err(Refusal::Length);
    }
    Ok(buffers::keys_from(set, k, opc))
}

// The image of a new card: all places 0.
#[unsafe(no_mangle)]
pub extern "C" fn vetrhoss_new_usim(
    edition: u8,
    set: u8,
    k: &[u8],
    opc: &[u8],
    image: &mut [u8],
) -> u64
    ensures { record { result = result; octets = image.new }
        ≡ new_usim_call edition set k.now opc.now image.old }
{
    results::returned(new_usim(edition, set, k, opc, image))
}

#[tactic(auto, unfolding(crate::specs::Interface::new_usim_call))]
fn new_usim(edition: u8, set: u8, k: &[u8], opc: &[u8], image: &mut [u8]) -> Result<u64, Refusal>
    ensures { record { result = returned_of result; octets = image.new }
        ≡ new_usim_call edition set k.now opc.now image.old }
{
    let keys = new_keys(edition, set, k, opc)?;
    usim_image::write(usim::new(edition, keys), image)?;
    Ok(0)
}

// The image of a new centre: SEQ_HE and the next index are 0.
#[unsafe(no_mangle)]
pub extern "C" fn vetrhoss_new_auc(
    edition: u8,
    set: u8,
    k: &[u8],
    opc: &[u8],
    amf: &[u8],
    image: &mut [u8],
) -> u64
    ensures { record { result = result; octets = image.new }
        ≡ new_auc_call edition set k.now opc.now amf.now image.old }
{
    results::returned(new_auc(edition, set, k, opc, amf, image))
}

#[tactic(auto, unfolding(crate::specs::Interface::new_auc_call))]
fn new_auc(
    edition: u8,
    set: u8,
    k: &[u8],
    opc: &[u8],
    amf: &[u8],
    image: &mut [u8],
) -> Result<u64, Refusal>
    ensures { record { result = returned_of result; octets = image.new }
        ≡ new_auc_call edition set k.now opc.now amf.now image.old }
{
    let keys = new_keys(edition, set, k, opc)?;
    if amf.len() != aka::AMF_SIZE {
        return Err(Refusal::Length);
    }
    auc_image::write(auc::new(edition, keys, octets::array(amf)), image)?;
    Ok(0)
}

// The card's answer to a challenge; the image changes with an acceptance.
#[unsafe(no_mangle)]
pub extern "C" fn vetrhoss_challenge(
    image: &mut [u8],
    rand: &[u8],
    autn: &[u8],
    res: &mut [u8],
    ck: &mut [u8],
    ik: &mut [u8],
    auts: &mut [u8],
) -> u64
    ensures { record {
      result = result;
      octets = record {
        image = image.new;
        res = res.new;
        ck = ck.new;
        ik = ik.new;
        auts = auts.new;
      };
    }
        ≡ challenge_call
        (record {
          image = image.old;
          res = res.old;
          ck = ck.old;
          ik = ik.old;
          auts = auts.old;
        })
        rand.now autn.now }
{
    results::returned(challenge(image, rand, autn, res, ck, ik, auts))
}

#[tactic(auto, unfolding(crate::specs::Interface::challenge_call))]
fn challenge(
    image: &mut [u8],
    rand: &[u8],
    autn: &[u8],
    res: &mut [u8],
    ck: &mut [u8],
    ik: &mut [u8],
    auts: &mut [u8],
) -> Result<u64, Refusal>
    ensures { record {
      result = returned_of result;
      octets = record {
        image = image.new;
        res = res.new;
        ck = ck.new;
        ik = ik.new;
        auts = auts.new;
      };
    }
        ≡ challenge_call
        (record {
          image = image.old;
          res = res.old;
          ck = ck.old;
          ik = ik.old;
          auts = auts.old;
        })
        rand.now autn.now }
{
    let usim = usim_image::read(image)?;
    if !usim_answer::are_sized(res, ck, ik, auts) {
        return Err(Refusal::Length);
    }
    let a = usim::challenge(usim, rand, autn);
    // A refusal leaves the buffers as they were.
    if let Verdict::Refused(number) = a.verdict {
        return Ok(number as u64);
    }
    usim_answer::fill_all(a, res, ck, ik, auts);
    Ok(usim_answer::hand_on(a, image))
}

// The centre's batch; the image changes where it is given.
#[unsafe(no_mangle)]
pub extern "C" fn vetrhoss_order(
    image: &mut [u8],
    count: u64,
    rands: &[u8],
    batch: &mut [u8],
) -> u64
    ensures { record { result = result; octets = record { image = image.new; batch = batch.new } }
        ≡ order_call (record { image = image.old; batch = batch.old }) count rands.now }
{
    results::returned(order(image, count, rands, batch))
}

#[tactic(auto, unfolding(crate::specs::Interface::on_image))]
fn order(image: &mut [u8], count: u64, rands: &[u8], batch: &mut [u8]) -> Result<u64, Refusal>
    ensures { record { result = returned_of result; octets = record { image = image.new; batch = batch.new } }
        ≡ order_call (record { image = image.old; batch = batch.old }) count rands.now }
{
    let auc = auc_image::read(image)?;
    let a = auc::order(auc, count, rands, batch);
    Ok(auc_answer::hand_on(a, image))
}

// The centre's batch after a synchronisation failure; the image changes where it is given.
#[unsafe(no_mangle)]
pub extern "C" fn vetrhoss_resynchronise(
    image: &mut [u8],
    count: u64,
    rand: &[u8],
    auts: &[u8],
    rands: &[u8],
    batch: &mut [u8],
) -> u64
    ensures { record { result = result; octets = record { image = image.new; batch = batch.new } }
        ≡ resync_call (record { image = image.old; batch = batch.old }) count rand.now auts.now rands.now }
{
    results::returned(resynchronise(image, count, rand, auts, rands, batch))
}

// Three lines like those of `order`: a function that takes what to ask of the record is longer than they are.
#[tactic(auto, unfolding(crate::specs::Interface::on_image))]
fn resynchronise(
    image: &mut [u8],
    count: u64,
    rand: &[u8],
    auts: &[u8],
    rands: &[u8],
    batch: &mut [u8],
) -> Result<u64, Refusal>
    ensures { record { result = returned_of result; octets = record { image = image.new; batch = batch.new } }
        ≡ resync_call (record { image = image.old; batch = batch.old }) count rand.now auts.now rands.now }
{
    let auc = auc_image::read(image)?;
    let a = auc::resynchronise(auc, count, rand, auts, rands, batch);
    Ok(auc_answer::hand_on(a, image))
}

// Where the vector at place k begins in a batch.
#[unsafe(no_mangle)]
pub extern "C" fn vetrhoss_vector_at(batch: &[u8], k: u64) -> u64
    ensures { result ≡ vector_at_call batch.now k }
{
    results::returned(vector_at(batch, k))
}

#[tactic(auto, using(aka::proofs::Offsets::offset_inside), unfolding(crate::specs::Interface::vector_at_call))]
fn vector_at(batch: &[u8], k: u64) -> Result<u64, Refusal>
    ensures { returned_of result ≡ vector_at_call batch.now k }
{
    let at = auc::offset_of(batch.len(), k).ok_or(Refusal::Length)?;
    Ok(results::both(0, at as u64))
}

// The triplets of a batch, for GSM phones.
#[unsafe(no_mangle)]
pub extern "C" fn vetrhoss_triplets(batch: &[u8], triplets: &mut [u8]) -> u64
    ensures { record { result = result; octets = triplets.new } ≡ triplets_call batch.now triplets.old }
{
    results::returned(triplets::convert(batch, triplets).map(|()| 0))
}
