// The field of 256 elements of FIPS 197, section 4.
#![tactic(auto)]

ghost use Rattle.std.specs.Prelude.{◌≡◌};
ghost use Rattle.gf256.specs.Field.{xtime, times};

// `b` times x. The top bit picks what is taken off, so that no branch depends on it; the gate sees to that.
pub fn double(b: u8) -> u8
    ensures { result ≡ xtime b }
{
    (b << 1) ^ ((b >> 7) * 27)
}

// `a` times `b`: `a` is halved until it is zero, and `b` doubled. Document 01 has this recursion.
pub fn multiply(a: u8, b: u8) -> u8
    ensures { result ≡ times a b }
{
    if a == 0 {
        0
    } else {
        multiply(a / 2, double(b)) ^ ((a % 2) * b)
    }
}
