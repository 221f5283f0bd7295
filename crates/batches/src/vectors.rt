// One authentication vector: made of a RAND, and written into a batch.
ghost use Rattle.std.specs.Prelude.{◌+◌, ◌≤◌, ◌++◌, ◌≡◌, length, take, drop};
ghost use Rattle.functions.specs.Challenge.{keys_of};
ghost use Rattle.functions.specs.Sets.{sets};
ghost use Rattle.aka.specs.Layout.{vector_size, write_vector};
ghost use Rattle.aka.specs.Auc.{make_vector};
ghost use Rattle.batches.specs.Views.{vector_of};

use functions::{PreparedKeys, ResAk};

#[derive(Clone, Copy, Drop)]
pub struct Vector {
    pub rand: [u8; aka::RAND_SIZE],
    pub xres: [u8; aka::RES_SIZE],
    pub ck: [u8; aka::CK_SIZE],
    pub ik: [u8; aka::IK_SIZE],
    pub autn: [u8; aka::AUTN_SIZE],
}

impl Vector {
    // The vector of a RAND, with SQN and AMF.
    pub fn new(
        keys: &PreparedKeys,
        sqn: [u8; aka::SQN_SIZE],
        amf: [u8; aka::AMF_SIZE],
        rand: [u8; aka::RAND_SIZE],
    ) -> Self
        ensures { vector_of result ≡ make_vector (sets.under (keys_of keys.now.keys)) sqn amf rand }
    {
        let prepared = keys.prepare(rand);
        let ResAk { res: xres, ak } = prepared.f2_f5();
        let ck = prepared.f3();
        let ik = prepared.f4();
        let mac = prepared.f1(sqn, amf);
        let autn = tokens::autn(sqn, ak, amf, mac);
        Vector {
            rand,
            xres,
            ck,
            ik,
            autn,
        }
    }

    // Puts the vector into a batch, from `at` on. What stands before and behind stays.
    pub fn put(&self, batch: &mut [u8], at: usize)
        requires { at + vector_size ≤ length batch.old }
        ensures { batch.new ≡ take at batch.old ++ write_vector (vector_of self.now) ++ drop (at + vector_size) batch.old }
    {
        octets::put(batch, at, &self.rand);
        octets::put(batch, at + aka::XRES_AT, &self.xres);
        octets::put(batch, at + aka::CK_AT, &self.ck);
        octets::put(batch, at + aka::IK_AT, &self.ik);
        octets::put(batch, at + aka::AUTN_AT, &self.autn);
    }
}
