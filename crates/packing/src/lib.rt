// Numbers of a few bits each, one behind the other in octets, the first bit the most significant: taken out of octets and put into them
// through a word of eight octets, one word a number.
//
// Nothing is refused here: widths and lengths are the callers' constants, and the numbers of a valid record are within their width.
#![tactic(auto)]

ghost use Rattle.std.specs.Prelude.{◌*◌, ◌+◌, ◌-◌, ◌/◌, ◌%◌, ◌<◌, ◌^◌, ◌≤◌, ◌++◌, ◌≡◌, length, take, drop};
ghost use Rattle.octets.specs.Octets.{Below, zeros, encode, decode};
ghost use Rattle.packing.specs.Packing.{unpacked, packed};

// The bits of an octet.
pub const OCTET_BITS: u64 = 8;

// The number that eight octets spell, in a form of which the compiler makes one load.
fn word(x: &[u8]) -> u64
    requires { length x.now ≡ 8 }
    ensures { result ≡ decode x.now }
{
    u64::from_be_bytes(octets::array(x))
}

// A width is a plain number below 57: callers hand one in, and a type for it would ask them to make it.
// The number of `bits` bits in x behind which `left` bits stand. It is in the word that ends with the number's last octet.
fn place(x: &[u8], left: u64, bits: u64) -> u64
    requires width { bits ≤ 56 }
    requires lengths { left + 64 ≤ 8 * length x.now }
    ensures { result ≡ decode x.now / 2 ^ left % 2 ^ bits }
{
    let end = x.len() - (left / OCTET_BITS) as usize;
    (word(&x[end - 8..end]) >> (left % OCTET_BITS)) % (1 << bits)
}

// Takes out the numbers of `bits` bits that stand in x from octet `at` to its end. Eight octets or more stand before them.
pub fn unpack(x: &[u8], at: usize, bits: u64, dst: &mut [u64])
    requires width { bits ≤ 56 }
    requires lengths { (8 ≤ at) × (at ≤ length x.now) × (length x.now ≤ 4096) }
    requires all { 8 * (length x.now - at) ≡ bits * length dst.old }
    ensures { dst.new ≡ unpacked bits (length dst.old) (drop at x.now) }
{
    let mut left = OCTET_BITS * ((x.len() - at) as u64);
    for i in 0..dst.len() {
        left -= bits;
        dst[i] = place(x, left, bits);
    }
}

// Puts a number as eight octets, from `at` on, in a form of which the compiler makes one store.
fn put_word(dst: &mut [u8], at: usize, x: u64)
    requires { at + 8 ≤ length dst.old }
    ensures { dst.new ≡ take at dst.old ++ encode 8 x ++ drop (at + 8) dst.old }
{
    octets::put(dst, at, &x.to_be_bytes());
}

// Puts numbers of `bits` bits into octets that are all zero, from the first bit on. Eight octets or more are left behind them.
//
// `held` is the last 64 bits of the numbers so far, so that no octet is read again: a word is put whole, from the octet on in which
// the next number begins, with what stood there before.
pub fn pack(src: &[u64], bits: u64, dst: &mut [u8])
    requires width { (0 < bits) × (bits ≤ 56) }
    requires below { Below (2 ^ bits) src.now }
    requires lengths { (bits * length src.now + 64 ≤ 8 * length dst.old) × (length dst.old ≤ 4096) }
    requires clear { dst.old ≡ zeros (length dst.old) }
    ensures { dst.new ≡ packed bits (length dst.old) src.now }
{
    let mut used = 0;
    let mut held = 0;
    for number in src {
        held = (held << bits) + *number;
        put_word(
            dst,
            (used / OCTET_BITS) as usize,
            held << (64 - used % OCTET_BITS - bits),
        );
        used += bits;
    }
}
