// The authentication functions f1 to f5* of sets 0 and 1. Once a call: `PreparedKeys::new`; once a RAND: its `prepare`, and each function
// is a method of what that gives.
//
//     let keys = PreparedKeys::new(keys);
//     let prepared = keys.prepare(rand);
//     let mac = prepared.f1(sqn, amf);
//
// A set above 1 is the caller's to refuse; here it counts as MILENAGE.
#![tactic(auto)]

ghost use Rattle.std.specs.Prelude.{◌≡◌, ◌≤◌};
ghost use Rattle.functions.specs.Sets.{is_set, sets};
ghost use Rattle.functions.specs.Challenge.{keys_of, IsSchedule};
ghost use Rattle.functions.specs.PreparedRand.{outputs_from, mac_at, Prepared};

use aes::Cipher;
use aes_words::Block;

// What USIM and AuC hold of a subscriber: the function set, K and OPc. The set is a number, since a caller may hand in any.
#[derive(Clone, Copy, Drop)]
pub struct Keys {
    pub set: u8,
    pub k: [u8; aka::KEY_SIZE],
    pub opc: [u8; aka::KEY_SIZE],
}

// A subscriber's keys, with the cipher for every RAND under them. Set 0 has no use for one: its key schedule is zeros.
#[derive(Drop)]
pub struct PreparedKeys {
    pub keys: Keys,
    pub cipher: Cipher,
    pub ghost made: { IsSchedule (keys_of keys) cipher.schedule },
}

// A RAND taken up: X of set 0, or what MILENAGE makes its outputs of. It may be any: what a method promises is said of its parts.
#[derive(Clone, Copy, Drop)]
pub enum PreparedRand<'a> {
    TestSet(Block),
    Milenage(milenage::Outputs<'a>),
}

// RES and AK.
#[derive(Clone, Copy, Drop)]
pub struct ResAk {
    pub res: [u8; aka::RES_SIZE],
    pub ak: [u8; aka::SQN_SIZE],
}

// Whether the function set is known.
pub fn is_known(set: u8) -> bool
    ensures { result ≡ is_set set }
{
    set <= 1
}

// Whether a record of this edition may hold these keys: refusal 1 does not apply to the two.
pub fn admits(edition: u8, keys: Keys) -> bool
    ensures { result ≡ sets.admits edition (keys_of keys) }
{
    editions::is_known(edition) && is_known(keys.set)
}

impl PreparedKeys {
    // The keys with their cipher, made once for a call.
    pub fn new(keys: Keys) -> Self
        ensures { result.keys ≡ keys }
    {
        let cipher = if keys.set == 0 {
            Cipher { schedule: [0; 44] }
        } else {
            Cipher::new(keys.k.into())
        };
        PreparedKeys { keys, cipher }
    }

    // A RAND taken up under the keys.
    pub fn prepare(&self, rand: [u8; aka::RAND_SIZE]) -> PreparedRand<'_>
        ensures { Prepared (keys_of self.now.keys) rand result }
    {
        if self.keys.set == 0 {
            return PreparedRand::TestSet(test_set::x(self.keys.k, rand));
        }
        let opc = self.keys.opc.into();
        let temp = milenage::temp(&self.cipher, opc, rand.into());
        PreparedRand::Milenage(milenage::Outputs {
            cipher: &self.cipher,
            opc,
            temp,
        })
    }
}

impl PreparedRand<'_> {
    // MAC: f1 of SQN, RAND and AMF. SQN and AMF stand apart here and below, as in the standard: a struct would be made for each call.
    pub fn f1(&self, sqn: [u8; aka::SQN_SIZE], amf: [u8; aka::AMF_SIZE]) -> [u8; aka::MAC_SIZE]
        ensures { result ≡ (outputs_from self.now).f1 sqn amf }
    {
        self.mac_at(0, sqn, amf)
    }

    // MAC-S: f1* of SQN_MS, RAND and AMF.
    pub fn f1s(&self, sqn: [u8; aka::SQN_SIZE], amf: [u8; aka::AMF_SIZE]) -> [u8; aka::MAC_SIZE]
        ensures { result ≡ (outputs_from self.now).f1* sqn amf }
    {
        self.mac_at(8, sqn, amf)
    }

    // MAC and MAC-S: of set 0 they are the same, of MILENAGE the part of OUT1 that begins at `at`.
    fn mac_at(
        &self,
        at: usize,
        sqn: [u8; aka::SQN_SIZE],
        amf: [u8; aka::AMF_SIZE],
    ) -> [u8; aka::MAC_SIZE]
        requires { at ≤ 8 }
        ensures { result ≡ mac_at self.now at sqn amf }
    {
        match *self {
            PreparedRand::TestSet(x) => test_set::mac(x, sqn, amf),
            PreparedRand::Milenage(m) => {
                octets::piece(m.out1(milenage::in1(sqn, amf)).into(), at)
            }
        }
    }

    // RES and AK: f2 and f5 of RAND, which MILENAGE takes from one block.
    pub fn f2_f5(&self) -> ResAk
        ensures { (result.res ≡ (outputs_from self.now).f2) × (result.ak ≡ (outputs_from self.now).f5) }
    {
        match *self {
            PreparedRand::TestSet(x) => {
                let x = x.into();
                ResAk {
                    res: octets::piece(x, 0),
                    ak: octets::piece(x, 3),
                }
            }
            PreparedRand::Milenage(m) => {
                let out2 = m.out2().into();
                ResAk {
                    res: octets::piece(out2, 8),
                    ak: octets::piece(out2, 0),
                }
            }
        }
    }

    // CK: f3 of RAND. It and IK have nothing in common but the choice by set.
    pub fn f3(&self) -> [u8; aka::CK_SIZE]
        ensures { result ≡ (outputs_from self.now).f3 }
    {
        match *self {
            PreparedRand::TestSet(x) => test_set::turned_left(x.into(), 1),
            PreparedRand::Milenage(m) => m.out3().into(),
        }
    }

    // IK: f4 of RAND.
    pub fn f4(&self) -> [u8; aka::IK_SIZE]
        ensures { result ≡ (outputs_from self.now).f4 }
    {
        match *self {
            PreparedRand::TestSet(x) => test_set::turned_left(x.into(), 2),
            PreparedRand::Milenage(m) => m.out4().into(),
        }
    }

    // AK*: f5* of RAND.
    pub fn f5s(&self) -> [u8; aka::SQN_SIZE]
        ensures { result ≡ (outputs_from self.now).f5* }
    {
        match *self {
            PreparedRand::TestSet(x) => octets::piece(x.into(), 3),
            PreparedRand::Milenage(m) => octets::piece(m.out5().into(), 0),
        }
    }
}
