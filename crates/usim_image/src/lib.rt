// The packed image of a USIM (document 01: card), most significant bit first: edition and set in 4 bits each, K, OPc, and the places by
// index.
#![tactic(auto)]

ghost use Rattle.std.specs.Prelude.{◌+◌, ◌-◌, ◌^◌, ◌≤◌, ◌++◌, ◌≡◌, length, take, drop, refl, IfOk};
ghost use Rattle.octets.specs.Octets.{Below, zeros, decode, digits, encode, number};
ghost use Rattle.functions.specs.Sets.{sets};
ghost use Rattle.aka.specs.Sequence.{width_of, indices, seq_bits};
ghost use Rattle.aka.specs.Editions.{editions, card_places};
ghost use Rattle.aka.specs.Usim as aka;
ghost use Rattle.aka.specs.Refusals.{refusal_in};
ghost use Rattle.editions.specs.Views.{most_octets};
ghost use Rattle.usim_record.specs.Views.{usim_of};
ghost use Rattle.images.proofs.Heads.{has_room};
ghost use Rattle.images.specs.Images.{IsSound, written_of, write_answer, read_answer};
ghost use Rattle.usim_image.specs.Image.{format, image_size, places_at, places_size};
ghost use Rattle.usim_image.specs.Views.{read_of};

use aka::Refusal;
use images::{ImageFormat, Refused};
use usim_record::Usim;

// Where the places begin.
const PLACES_AT: usize = images::HEAD_SIZE;

// The octets of the largest image.
pub const MOST: usize = PLACES_AT + editions::MOST_OCTETS;

// Room for the packed places, and for the word that the last of them is put by.
const ROOM: usize = editions::MOST_OCTETS + 8;

// The octets of an image of an edition.
pub fn size(edition: u8) -> usize
    ensures { (result ≡ image_size (width_of editions edition)) × (result ≤ places_at + most_octets) }
{
    let m = editions::row(edition);
    PLACES_AT + m.octets
}

// Puts the places of an edition's indices into an image. What stands before stays.
fn put_places(image: &mut [u8], edition: u8, places: [u64; editions::PLACES])
    requires size { length image.old ≡ image_size (width_of editions edition) }
    requires below { Below (2 ^ seq_bits (width_of editions edition)) places }
    ensures { image.new
        ≡ take places_at image.old ++ encode (places_size (width_of editions edition)) (
        number (2 ^ seq_bits (width_of editions edition)) (take (indices (width_of editions edition)) places)
        ) }
{
    let m = editions::row(edition);
    let mut room = [0u8; ROOM];
    packing::pack(&places[..m.indices as usize], m.bits, &mut room);
    octets::copy(&room[..m.octets], &mut image[PLACES_AT..]);
}

// The places of an image of an edition, and zeros behind them.
fn unpack_places(image: &[u8], edition: u8) -> [u64; editions::PLACES]
    requires { length image.now ≡ image_size (width_of editions edition) }
    ensures { result
        ≡ digits (2 ^ seq_bits (width_of editions edition)) (indices (width_of editions edition)) (decode (drop places_at image.now))
        ++ zeros (card_places - indices (width_of editions edition)) }
{
    let m = editions::row(edition);
    let mut places = [0u64; editions::PLACES];
    packing::unpack(image, PLACES_AT, m.bits, &mut places[..m.indices as usize]);
    places
}

// The format of the card's images.
pub struct UsimFormat;

impl ImageFormat for UsimFormat {
    type Record = Usim;

    ghost View = { aka.Usim };

    ghost view = { usim_of };

    ghost format = { format editions sets };

    ghost admits_heads = { λ x. refl };

    ghost holds_head = { λ edition. has_room (places_size (width_of editions edition)) };

    fn edition(held: Usim) -> u8 {
        held.edition
    }

    fn is_valid(held: Usim) -> bool {
        usim_record::is_valid(held)
    }

    fn size(edition: u8) -> usize {
        size(edition)
    }

    #[tactic(auto, using(aka::proofs::Verdicts::valid_parts, aka::proofs::Places::within_below))]
    fn fill(held: Usim, image: &mut [u8]) {
        images::put_head(image, held.edition, held.keys);
        put_places(image, held.edition, held.places);
    }

    fn unpack(image: &[u8]) -> Usim {
        let edition = images::edition_in(image);
        Usim {
            edition,
            keys: images::keys_in(image),
            places: unpack_places(image, edition),
        }
    }

    fn zero() -> Usim {
        usim_record::new(0, images::no_keys())
    }
}

// It and `read` stay as names over the one writing and reading of `images`: the calls of C and docs/ go by them.
// Writes the image of `usim`. A refusal leaves the buffer as it was.
pub fn write(usim: Usim, buffer: &mut [u8]) -> Result<(), Refusal>
    ensures { written_of (refusal_in result) buffer.new ≡ write_answer (format editions sets) (usim_of usim) buffer.old }
{
    images::write::<UsimFormat>(usim, buffer)
}

// Reads an image of any length and contents.
pub fn read(image: &[u8]) -> Result<Usim, Refused<Usim>>
    ensures answer { read_of result ≡ read_answer (format editions sets) image.now }
    ensures sound { IfOk result (λ usim. IsSound (format editions sets) image.now (usim_of usim)) }
{
    images::read::<UsimFormat>(image)
}
