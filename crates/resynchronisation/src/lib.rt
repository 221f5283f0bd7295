// What the AUTS of a synchronisation failure says to the authentication centre, AuC (document 01: centre): SQN_MS, whether MAC-S is right,
// and whether SEQ_HE is kept or reset.
#![tactic(auto)]

ghost use Rattle.std.specs.Prelude.{◌≤◌, ◌<◌, ◌^◌, ◌≡◌};
ghost use Rattle.octets.specs.Octets.{Octets};
ghost use Rattle.functions.specs.Challenge.{keys_of};
ghost use Rattle.functions.specs.PreparedRand.{Prepared};
ghost use Rattle.functions.specs.Sets.{sets};
ghost use Rattle.aka.specs.Functions.{Keys as KeysOf};
ghost use Rattle.aka.specs.Layout.{most_vectors};
ghost use Rattle.aka.specs.Sequence.{sqn_bits, width_of, limit};
ghost use Rattle.aka.specs.Editions.{editions};
ghost use Rattle.aka.specs.Auc.{in_range, sqn_ms_in, mac_s_right};
ghost use Rattle.resynchronisation.specs.Rulings.{Ruled};

use aka::Refusal;
use functions::{PreparedKeys, PreparedRand};

// SEQ_HE is kept where it is in range, and otherwise reset; the number is SEQ_HE as it then stands, which the batch follows.
#[derive(Clone, Copy, Drop)]
pub enum Ruling {
    Kept(u64),
    Reset(u64),
}

// MAC-S is wrong. No batch follows the ruling: it is what a right MAC-S would rule.
#[derive(Clone, Copy, Drop)]
pub struct Refused {
    pub refusal: Refusal,
    pub ruling: Ruling,
}

// Whether SEQ_HE is at least SEQ_MS and no number of the batch passes SEQ_MS + D.
#[tactic(auto, unfolding(aka::specs::Auc::in_range))]
fn in_range(seqhe: u64, seqms: u64, n: u8) -> bool
    requires { (n ≤ most_vectors) × (seqhe < 2 ^ sqn_bits) × (seqms < 2 ^ sqn_bits) }
    ensures { result ≡ in_range seqhe seqms n }
{
    seqms <= seqhe && seqhe + (n as u64) <= seqms + aka::D
}

// SQN_MS, which AUTS conceals with AK*: f5* of RAND.
fn sqn_ms(prepared: &PreparedRand, auts: [u8; aka::AUTS_SIZE]) -> [u8; aka::SQN_SIZE]
    ensures { (keys : KeysOf) (rand : Octets) → Prepared keys rand prepared.now → result ≡ sqn_ms_in (sets.under keys) rand auts }
{
    tokens::sqn_ms_in(auts, prepared.f5s())
}

// Whether AUTS's MAC-S is f1* of SQN_MS, RAND and an AMF of zero.
fn mac_s_right(
    prepared: &PreparedRand,
    sqn: [u8; aka::SQN_SIZE],
    auts: [u8; aka::AUTS_SIZE],
) -> bool
    ensures { (keys : KeysOf) (rand : Octets) → Prepared keys rand prepared.now → sqn ≡ sqn_ms_in (sets.under keys) rand auts
        → result ≡ mac_s_right (sets.under keys) rand auts }
{
    let mac = tokens::mac_s_in(auts);
    let expected = prepared.f1s(sqn, [0; aka::AMF_SIZE]);
    octets::equal_without_early_end(&mac, &expected)
}

// `n` is a number and no `Rands`: what is decided does not depend on them.
// In range SEQ_HE is kept, and MAC-S is not looked at. Otherwise MAC-S is verified, and SEQ_HE becomes SEQ_MS; refusal 5 where it is wrong.
pub fn decide(
    keys: &PreparedKeys,
    edition: u8,
    rand: [u8; aka::RAND_SIZE],
    auts: [u8; aka::AUTS_SIZE],
    seqhe: u64,
    n: u8,
) -> Result<Ruling, Refused>
    requires { (n ≤ most_vectors) × (seqhe ≤ limit (width_of editions edition)) }
    ensures { Ruled (width_of editions edition) (sets.under (keys_of keys.now.keys)) rand auts seqhe n result }
{
    let prepared = keys.prepare(rand);
    let sqn = sqn_ms(&prepared, auts);
    let m = editions::row(edition);
    let ms = tokens::sqn_number(sqn) / m.indices;
    if in_range(seqhe, ms, n) {
        Ok(Ruling::Kept(seqhe))
    } else if mac_s_right(&prepared, sqn, auts) {
        Ok(Ruling::Reset(ms))
    } else {
        Err(Refused {
            refusal: Refusal::MacS,
            ruling: Ruling::Reset(ms),
        })
    }
}
