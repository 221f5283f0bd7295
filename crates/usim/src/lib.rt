// The USIM (document 01: card): its answer to a challenge. Its record is handed on from `usim_record`.
#![tactic(auto)]

ghost use Rattle.std.specs.Prelude.{true, ◌≡◌, length, IfOk, IfErr};
ghost use Rattle.octets.specs.Octets.{Octets, encode};
ghost use Rattle.functions.specs.Challenge.{keys_of};
ghost use Rattle.functions.specs.PreparedRand.{Prepared};
ghost use Rattle.functions.specs.Sets.{sets};
ghost use Rattle.aka.specs.Refusals.{number_of};
ghost use Rattle.aka.specs.Functions.{Keys as KeysOf, dummy_amf};
ghost use Rattle.aka.specs.Layout.{sqn_size, rand_size, autn_size};
ghost use Rattle.aka.specs.Sequence.{width_of};
ghost use Rattle.aka.specs.Editions.{editions};
ghost use Rattle.aka.specs.Usim.{UsimShaped, valid_usim, sqn_in, sqn_ms, make_auts, mac_right, accepted, refused, judgement};
ghost use Rattle.aka.specs.Usim.{challenge as challenge_of};
ghost use Rattle.usim_record.specs.Views.{usim_of, answer_of, SqnTold};
ghost use Rattle.usim.specs.Judging.{MacVerified, AnswerFor};

use aka::Refusal;
use functions::{PreparedKeys, PreparedRand};
pub use usim_record::{Answer, Usim, Verdict, is_valid, new};
use usim_record::{places, unchanged};

// A card whose record is valid.
#[derive(Drop)]
struct Card {
    usim: Usim,
    ghost valid: { valid_usim editions sets (usim_of usim) ≡ true },
}

// Whether AUTN's MAC is f1 of SQN, RAND and AUTN's AMF.
fn mac_right(prepared: &PreparedRand, sqn: [u8; aka::SQN_SIZE], autn: [u8; aka::AUTN_SIZE]) -> bool
    ensures { (keys : KeysOf) (rand : Octets) → Prepared keys rand prepared.now → sqn ≡ sqn_in (sets.under keys) rand autn
        → result ≡ mac_right (sets.under keys) rand autn }
{
    let mac: [u8; aka::MAC_SIZE] = octets::piece(autn, aka::MAC_AT);
    let expected = prepared.f1(sqn, tokens::amf_in(autn));
    octets::equal_without_early_end(&mac, &expected)
}

impl Card {
    // AUTS of SQN_MS, concealed with AK*: f5* of RAND. The AMF of MAC-S is zero.
    fn auts(&self, prepared: &PreparedRand) -> [u8; aka::AUTS_SIZE]
        ensures { (keys : KeysOf) (rand : Octets) → Prepared keys rand prepared.now
            → result ≡ make_auts (sets.under keys)
            (encode sqn_size (sqn_ms (width_of editions self.now.usim.edition) (usim_of self.now.usim))) dummy_amf rand }
    {
        let m = editions::row(self.usim.edition);
        let sqn = tokens::sqn_octets(places::sqn_ms(self.usim.places, m.indices));
        let ak = prepared.f5s();
        let mac = prepared.f1s(sqn, [0; aka::AMF_SIZE]);
        tokens::auts(sqn, ak, mac)
    }

    // The place at IND becomes SEQ, and the keys are given.
    fn accept(&self, prepared: &PreparedRand, sqn: u64, res: [u8; aka::RES_SIZE]) -> Answer
        ensures { (rand autn : Octets) → MacVerified (keys_of self.now.usim.keys) rand autn prepared.now sqn res
            → AnswerFor (usim_of self.now.usim) rand autn accepted result }
    {
        let m = editions::row(self.usim.edition);
        let ind = (sqn % m.indices) as usize;
        let mut next = self.usim;
        next.places[ind] = sqn / m.indices;
        let ck = prepared.f3();
        let ik = prepared.f4();
        Answer {
            verdict: Verdict::Accepted(sqn),
            usim: next,
            res,
            ck,
            ik,
            auts: [0; aka::AUTS_SIZE],
        }
    }

    // MAC is right: freshness decides.
    fn judge_sqn(&self, prepared: &PreparedRand, sqn: u64, res: [u8; aka::RES_SIZE]) -> Answer
        ensures { (rand autn : Octets) → MacVerified (keys_of self.now.usim.keys) rand autn prepared.now sqn res
            → AnswerFor (usim_of self.now.usim) rand autn (judgement editions sets (usim_of self.now.usim) rand autn) result }
    {
        let m = editions::row(self.usim.edition);
        if !places::is_fresh(
            self.usim.places,
            sqn / m.indices,
            (sqn % m.indices) as usize,
        ) {
            return unchanged(Verdict::Sync, self.usim, self.auts(prepared));
        }
        self.accept(prepared, sqn, res)
    }

    // First MAC, then freshness.
    fn judge(&self, prepared: &PreparedRand, autn: [u8; aka::AUTN_SIZE]) -> Answer
        ensures { (rand : Octets) → Prepared (keys_of self.now.usim.keys) rand prepared.now
            → AnswerFor (usim_of self.now.usim) rand autn (judgement editions sets (usim_of self.now.usim) rand autn) result }
    {
        let both = prepared.f2_f5();
        let sqn = tokens::sqn_in(autn, both.ak);
        if !mac_right(prepared, sqn, autn) {
            return unchanged(Verdict::Mac, self.usim, [0; aka::AUTS_SIZE]);
        }
        self.judge_sqn(prepared, tokens::sqn_number(sqn), both.res)
    }

    // The answer to a challenge of the lengths named. The keys are prepared once, and so is RAND.
    fn authenticate(&self, rand: [u8; aka::RAND_SIZE], autn: [u8; aka::AUTN_SIZE]) -> Answer
        ensures { AnswerFor (usim_of self.now.usim) rand autn (judgement editions sets (usim_of self.now.usim) rand autn) result }
    {
        let keys = PreparedKeys::new(self.usim.keys);
        let prepared = keys.prepare(rand);
        self.judge(&prepared, autn)
    }
}

// The card, where RAND and AUTN have the lengths named; else the lowest refusal that applies.
fn admit(usim: Usim, rand: &[u8], autn: &[u8]) -> Result<Card, Refusal>
    ensures ok { IfOk result (λ card. (card.usim ≡ usim) × (length rand.now ≡ rand_size) × (length autn.now ≡ autn_size)) }
    ensures err { IfErr result (λ refusal. (challenge_of editions sets (usim_of usim) rand.now autn.now).verdict
        ≡ refused (number_of refusal)) }
{
    if !is_valid(usim) {
        return Err(Refusal::Invalid);
    }
    if rand.len() != aka::RAND_SIZE || autn.len() != aka::AUTN_SIZE {
        return Err(Refusal::Length);
    }
    Ok(Card { usim })
}

// The USIM's whole answer to a challenge of any octets. RAND and AUTN are lent apart, as the node and C have them.
pub fn challenge(usim: Usim, rand: &[u8], autn: &[u8]) -> Answer
    ensures answer { answer_of result ≡ challenge_of editions sets (usim_of usim) rand.now autn.now }
    ensures sqn { SqnTold result.verdict (usim_of usim) rand.now autn.now }
    ensures shape { UsimShaped editions (usim_of usim) }
{
    match admit(usim, rand, autn) {
        Ok(card) => card.authenticate(octets::array(rand), octets::array(autn)),
        Err(refusal) => unchanged(
            Verdict::Refused(refusal.number()),
            usim,
            [0; aka::AUTS_SIZE],
        ),
    }
}
