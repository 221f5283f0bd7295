// Octet strings. The definitions are in specs/, the laws that every layer shares in proofs/, and here are the few functions on
// octets that several layers call.
#![tactic(auto)]

ghost use Rattle.std.specs.Prelude.{◌++◌, ◌≡◌, ◌+◌, ◌≤◌, ◌<◌, length, take, drop};
ghost use Rattle.octets.specs.Octets.{part, xor as xor_of, equal as equal_to};

// Whether two strings of one length are equal. It ends at the first difference, and so is for what is no secret, like a RAND.
pub fn equal(x: &[u8], y: &[u8]) -> bool
    requires { length x.now ≡ length y.now }
    ensures { result ≡ equal_to x.now y.now }
{
    x == y
}

// The same for two MACs, or a response and the one expected. All octets are looked at, whatever they are: the time tells nothing of where
// they differ. So this stays a function of its own: `==` may end at the first difference.
pub fn equal_without_early_end(x: &[u8], y: &[u8]) -> bool
    requires { length x.now ≡ length y.now }
    ensures { result ≡ equal_to x.now y.now }
{
    let mut differences = 0;
    for (a, b) in x.iter().zip(y) {
        differences |= a ^ b;
    }
    differences == 0
}

// Copies octets over the front of a buffer that has room for them, and returns how many they are.
pub fn copy(from: &[u8], to: &mut [u8]) -> usize
    requires { length from.now ≤ length to.old }
    ensures count { result ≡ length from.now }
    ensures octets { to.new ≡ from.now ++ drop (length from.now) to.old }
{
    to[..from.len()].copy_from_slice(from);
    from.len()
}

// Puts `part` into a buffer, from `at` on. What stands before and behind stays.
pub fn put(buffer: &mut [u8], at: usize, part: &[u8])
    requires { at + length part.now ≤ length buffer.old }
    ensures { buffer.new
        ≡ take at buffer.old ++ part.now ++ drop (at + length part.now) buffer.old }
{
    copy(part, &mut buffer[at..]);
}

// N lent octets as an array.
pub fn array<const N: usize>(s: &[u8]) -> [u8; N]
    requires { length s.now ≡ N }
    ensures { result ≡ s.now }
{
    s.try_into().unwrap()
}

// N octets of a block, from `at` on.
pub fn piece<const N: usize>(x: [u8; 16], at: usize) -> [u8; N]
    requires { at + N ≤ 16 }
    ensures { result ≡ part at N x }
{
    array(&x[at..at + N])
}

// The sum of two strings of N octets. By the place: what a `zip` over `iter_mut` leaves is more than a proof knows.
pub fn xor<const N: usize>(x: [u8; N], y: [u8; N]) -> [u8; N]
    ensures { result ≡ xor_of x.entry y.entry }
{
    let mut sum = x;
    for (i, octet) in sum.iter_mut().enumerate() {
        *octet ^= y[i];
    }
    sum
}
