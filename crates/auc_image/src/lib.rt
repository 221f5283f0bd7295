// The packed image of an AuC's record (document 01: centre), most significant bit first: edition and set in 4 bits each, K, OPc, AMF,
// SEQ_HE and the next index.
#![tactic(auto)]

ghost use Rattle.std.specs.Prelude.{true, ◌+◌, ◌≡◌, refl, IfOk};
ghost use Rattle.octets.specs.Octets.{encode, number};
ghost use Rattle.functions.specs.Sets.{sets};
ghost use Rattle.aka.specs.Layout.{amf_size, sqn_size};
ghost use Rattle.aka.specs.Auc as aka;
ghost use Rattle.aka.specs.Refusals.{refusal_in};
ghost use Rattle.aka.specs.Sequence.{width_of};
ghost use Rattle.aka.specs.Editions.{editions};
ghost use Rattle.auc_record.specs.Views.{auc_of};
ghost use Rattle.images.proofs.Heads.{has_room};
ghost use Rattle.images.specs.Images.{IsSound, written_of, write_answer, read_answer};
ghost use Rattle.auc_image.specs.Image.{bits, format};
ghost use Rattle.auc_image.specs.Views.{read_of};

use aka::Refusal;
use auc_record::Auc;
use images::{ImageFormat, Refused};

// Where AMF begins, and where the counters: SEQ_HE and the next index.
const AMF_AT: usize = images::HEAD_SIZE;

const COUNTERS_AT: usize = AMF_AT + aka::AMF_SIZE;

// The octets of an image.
pub const SIZE: usize = COUNTERS_AT + aka::SQN_SIZE;

// SEQ_HE of a valid record above the next index, in six octets.
fn counters_of(auc: Auc) -> [u8; aka::SQN_SIZE]
    requires { aka.valid_auc editions sets (auc_of auc) ≡ true }
    ensures { result ≡ encode sqn_size (number 2 (bits (width_of editions auc.edition) (auc_of auc))) }
{
    tokens::sqn_octets(editions::sqn(auc.edition, auc.seqhe, auc.next))
}

// The format of the centre's images.
pub struct AucFormat;

impl ImageFormat for AucFormat {
    type Record = Auc;

    ghost View = { aka.Auc };

    ghost view = { auc_of };

    ghost format = { format editions sets };

    ghost admits_heads = { λ x. refl };

    ghost holds_head = { λ edition. has_room (amf_size + sqn_size) };

    fn edition(held: Auc) -> u8 {
        held.edition
    }

    fn is_valid(held: Auc) -> bool {
        auc_record::is_valid(held)
    }

    fn size(_edition: u8) -> usize {
        SIZE
    }

    fn fill(held: Auc, image: &mut [u8]) {
        images::put_head(image, held.edition, held.keys);
        octets::put(image, AMF_AT, &held.amf);
        octets::put(image, COUNTERS_AT, &counters_of(held));
    }

    fn unpack(image: &[u8]) -> Auc {
        let edition = images::edition_in(image);
        let m = editions::row(edition);
        let counters = tokens::sqn_number(octets::array(&image[COUNTERS_AT..SIZE]));
        Auc {
            edition,
            keys: images::keys_in(image),
            amf: octets::array(&image[AMF_AT..COUNTERS_AT]),
            seqhe: counters / m.indices,
            next: (counters % m.indices) as u8,
        }
    }

    fn zero() -> Auc {
        auc_record::new(0, images::no_keys(), [0; aka::AMF_SIZE])
    }
}

// It and `read` stay as names over the one writing and reading of `images`: the calls of C and docs/ go by them.
// Writes the image of `auc`. A refusal leaves the buffer as it was.
pub fn write(auc: Auc, buffer: &mut [u8]) -> Result<(), Refusal>
    ensures { written_of (refusal_in result) buffer.new ≡ write_answer (format editions sets) (auc_of auc) buffer.old }
{
    images::write::<AucFormat>(auc, buffer)
}

// Reads an image of any length and contents.
pub fn read(image: &[u8]) -> Result<Auc, Refused<Auc>>
    ensures answer { read_of result ≡ read_answer (format editions sets) image.now }
    ensures sound { IfOk result (λ auc. IsSound (format editions sets) image.now (auc_of auc)) }
{
    images::read::<AucFormat>(image)
}
