// What the packed images of USIM and AuC share: the head, edition and set in 4 bits each, K and OPc, and writing and reading an image of
// any format. What the two answer is said once for both in specs/Images, and proofs/RoundTrips shows once that each gives back what the
// other took.
#![tactic(auto)]

ghost use Rattle.std.specs.Prelude.{ℕ, true, ◌++◌, ◌≡◌, ◌<◌, ◌≤◌, length, drop};
ghost use Rattle.functions.specs.Challenge.{keys_of};
ghost use Rattle.functions.specs.Sets.{sets};
ghost use Rattle.aka.specs.Refusals.{refusal_in};
ghost use Rattle.octets.specs.Octets.{Octets};
ghost use Rattle.images.specs.Head.{head, head_size, edition_in, keys_in, admitted_head, no_keys};
ghost use Rattle.images.specs.Images.{Format, read_of, written_of, read_answer, write_answer};

use aka::Refusal;
use functions::Keys;

// Edition and set have 4 bits each: so many values.
const NIBBLE: u8 = 16;

// Where K and OPc begin.
const K_AT: usize = 1;

const OPC_AT: usize = K_AT + aka::KEY_SIZE;

// The octets of a head.
pub const HEAD_SIZE: usize = OPC_AT + aka::KEY_SIZE;

// Puts the head of a record into an image, whose edition admits its keys. What stands behind it stays.
#[tactic(auto, using(crate::proofs::Heads::few))]
pub fn put_head(image: &mut [u8], edition: u8, keys: Keys)
    requires size { head_size ≤ length image.old }
    requires admitted { sets.admits edition (keys_of keys) ≡ true }
    ensures { image.new ≡ head edition (keys_of keys) ++ drop head_size image.old }
{
    image[0] = NIBBLE * edition + keys.set;
    octets::put(image, K_AT, &keys.k);
    octets::put(image, OPC_AT, &keys.opc);
}

// Set, K and OPc of an image.
#[tactic(auto, unfolding(crate::specs::Head::keys_in))]
pub fn keys_in(image: &[u8]) -> Keys
    requires { head_size ≤ length image.now }
    ensures { keys_of result ≡ keys_in image.now }
{
    Keys {
        set: image[0] % NIBBLE,
        k: octets::array(&image[K_AT..OPC_AT]),
        opc: octets::array(&image[OPC_AT..HEAD_SIZE]),
    }
}

// The edition of an image.
pub fn edition_in(image: &[u8]) -> u8
    requires { 0 < length image.now }
    ensures { result ≡ edition_in image.now }
{
    image[0] / NIBBLE
}

// The keys of a refused reading.
pub fn no_keys() -> Keys
    ensures { keys_of result ≡ no_keys }
{
    Keys {
        set: 0,
        k: [0; aka::KEY_SIZE],
        opc: [0; aka::KEY_SIZE],
    }
}

// How the records of one type are packed: the values of specs/Images in code.
pub trait ImageFormat {
    type Record: Copy + Drop;

    // A record as the protocol has it.
    ghost View: { Type 0 };

    ghost view: { Self.Record → Self.View };

    ghost format: { Format Self.View };

    fn edition(held: Self::Record) -> u8
        ensures { result ≡ format.edition (view held) };

    // Whether refusal 1 does not apply.
    fn is_valid(held: Self::Record) -> bool
        ensures { result ≡ format.valid (view held) };

    // The octets of an image of an edition.
    fn size(edition: u8) -> usize
        ensures { result ≡ format.size edition };

    // Fills an image with a valid record.
    fn fill(held: Self::Record, image: &mut [u8])
        requires valid { format.valid (view held) ≡ true }
        requires size { length image.old ≡ format.size (format.edition (view held)) }
        ensures { image.new ≡ format.image (view held) };

    // The record of an image.
    fn unpack(image: &[u8]) -> Self::Record
        requires { length image.now ≡ format.size (edition_in image.now) }
        ensures { view result ≡ format.record_in image.now };

    // The record of a refused reading.
    fn zero() -> Self::Record
        ensures { view result ≡ format.zero };

    // Only the head of an image can be unknown, and an image has room for it.
    ghost admits_heads: { (x : Octets) → format.admitted x ≡ admitted_head sets x };

    ghost holds_head: { (edition : ℕ) → head_size ≤ format.size edition };
}

// A refused reading: the rest of its answer is a record of zeros.
#[derive(Clone, Copy, Drop)]
pub struct Refused<R> {
    pub refusal: Refusal,
    pub contents: R,
}

impl<R: Drop> From<Refused<R>> for Refusal {
    ghost from_gives = { λ refused refusal. refusal ≡ refused.refusal };

    fn from(value: Refused<R>) -> Refusal {
        value.refusal
    }
}

// The answer of a refused reading.
fn refused_read<F: ImageFormat>(refusal: Refusal) -> Refused<F::Record>
    ensures { (result.refusal ≡ refusal) × (F.view result.contents ≡ F.format.zero) }
{
    Refused {
        refusal,
        contents: F::zero(),
    }
}

// Writes the image of a record. A refusal leaves the buffer as it was.
#[tactic(auto, unfolding(crate::specs::Images::write_answer))]
pub fn write<F: ImageFormat>(held: F::Record, buffer: &mut [u8]) -> Result<(), Refusal>
    ensures { written_of (refusal_in result) buffer.new ≡ write_answer F.format (F.view held) buffer.old }
{
    if !F::is_valid(held) {
        return Err(Refusal::Invalid);
    }
    if buffer.len() != F::size(F::edition(held)) {
        return Err(Refusal::Length);
    }
    F::fill(held, buffer);
    Ok(())
}

// Reads an image of any length and contents.
#[tactic(auto, unfolding(crate::specs::Images::read_answer))]
pub fn read<F: ImageFormat>(image: &[u8]) -> Result<F::Record, Refused<F::Record>>
    ensures { read_of F.view result ≡ read_answer F.format image.now }
{
    if image.is_empty() {
        return Err(refused_read::<F>(Refusal::Length));
    }
    let edition = edition_in(image);
    if !editions::is_known(edition) {
        return Err(refused_read::<F>(Refusal::Invalid));
    }
    if image.len() != F::size(edition) {
        return Err(refused_read::<F>(Refusal::Length));
    }
    if !functions::admits(edition, keys_in(image)) {
        return Err(refused_read::<F>(Refusal::Invalid));
    }
    Ok(F::unpack(image))
}
