// The earliest pair of equal RANDs.
ghost use Rattle.std.specs.Prelude.{◌+◌, ◌*◌, ◌≤◌, ◌≡◌, length};
ghost use Rattle.octets.specs.Octets.{equal};
ghost use Rattle.aka.specs.Layout.{rand_size, rand_at};
ghost use Rattle.aka.specs.Auc.{equal_pair};
ghost use Rattle.auc_record.specs.Views.{pair_of};

// Whether the RANDs at places i and j are equal.
fn equal_rands(rands: &[u8], i: u8, j: u8) -> bool
    requires { (rand_size * i + rand_size ≤ length rands.now) × (rand_size * j + rand_size ≤ length rands.now) }
    ensures { result ≡ equal (rand_at rands.now i) (rand_at rands.now j) }
{
    let p = aka::RAND_SIZE * (i as usize);
    let q = aka::RAND_SIZE * (j as usize);
    octets::equal(&rands[p..p + aka::RAND_SIZE], &rands[q..q + aka::RAND_SIZE])
}

// The earliest pair among n RANDs: the smallest first place, then the smallest second. Two loops, left by label at the first pair: the form
// that document 01 names.
pub fn equal_pair(rands: &[u8], n: u8) -> Option<(u8, u8)>
    requires { length rands.now ≡ rand_size * n }
    ensures { pair_of result ≡ equal_pair rands.now n }
{
    let mut pair = None;
    'search: for i in 0..n {
        for j in i + 1..n {
            if equal_rands(rands, i, j) {
                pair = Some((i, j));
                break 'search;
            }
        }
    }
    pair
}
