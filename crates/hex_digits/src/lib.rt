// Octets as lower-case hex text.
#![tactic(auto)]

ghost use Rattle.std.specs.Prelude.{◌*◌, ◌<◌, true, ◌≡◌, length};
ghost use Rattle.hex_digits.specs.Hex.{all_hex_digits, glyph as glyph_of, has_room, hex, is_hex, is_hex_digit};
ghost use Rattle.hex_digits.specs.Hex.{read_into, unhex, value as value_of, written_into};

// Whether `c` is a lower-case hex digit.
#[tactic(auto, unfolding(crate::specs::Hex::is_hex_digit))]
fn is_hex_digit(c: u8) -> bool
    ensures { result ≡ is_hex_digit c }
{
    matches!(c, b'0'..=b'9' | b'a'..=b'f')
}

// The digit that `c` stands for.
#[tactic(auto, using(crate::proofs::HexLaws::digit_range), unfolding(crate::specs::Hex::value))]
fn value(c: u8) -> u8
    requires { is_hex_digit c ≡ true }
    ensures value { result ≡ value_of c }
    ensures upper_bound { result < 16 }
{
    if c <= b'9' { c - b'0' } else { c - b'a' + 10 }
}

// The character of the digit `d`.
#[tactic(auto, unfolding(crate::specs::Hex::glyph))]
fn glyph(d: u8) -> u8
    requires { d < 16 }
    ensures { result ≡ glyph_of d }
{
    if d < 10 { b'0' + d } else { b'a' + (d - 10) }
}

// Whether all of `text` is lower-case hex digits.
fn all_hex_digits(text: &[u8]) -> bool
    ensures { result ≡ all_hex_digits text.now }
{
    text.iter().all(|c| is_hex_digit(*c))
}

// Fills `out` with the octets of `text`, which is hex of so many. By the index, since each octet stands for two places of the other slice.
// Not inlined: where the length is known the compiler lays the turns out one by one, and a line of hex took a third longer.
#[inline(never)]
fn decode(text: &[u8], out: &mut [u8])
    requires text_len { length text.now ≡ 2 * length out.old }
    requires text_value { all_hex_digits text.now ≡ true }
    ensures { out.new ≡ unhex text.now }
{
    for i in 0..out.len() {
        let high = value(text[2 * i]);
        let low = value(text[2 * i + 1]);
        out[i] = high * 16 + low;
    }
}

// Reads `out` from `text`. Whether `text` is the hex of as many octets as `out` has; where it is not, `out` is as it was. A bool says
// that whole, as it does for `write`: there is one way to fail, and no value to hand back.
#[tactic(auto, unfolding(crate::specs::Hex::is_hex, crate::specs::Hex::read_into))]
pub fn read(text: &[u8], out: &mut [u8]) -> bool
    ensures answer { result ≡ is_hex (length out.old) text.now }
    ensures octets { out.new ≡ read_into out.old text.now }
{
    if text.len() != 2 * out.len() || !all_hex_digits(text) {
        return false;
    }
    decode(text, out);
    true
}

// Fills `out` with the hex of `octets`. Not inlined, as `decode`.
#[inline(never)]
fn encode(octets: &[u8], out: &mut [u8])
    requires { length out.old ≡ 2 * length octets.now }
    ensures { out.new ≡ hex octets.now }
{
    for (i, b) in octets.iter().enumerate() {
        out[2 * i] = glyph(*b / 16);
        out[2 * i + 1] = glyph(*b % 16);
    }
}

// Writes `octets` to `out` as hex. Whether `out` is twice as long; where it is not, it is as it was.
#[tactic(auto, unfolding(crate::specs::Hex::has_room, crate::specs::Hex::written_into))]
pub fn write(octets: &[u8], out: &mut [u8]) -> bool
    ensures answer { result ≡ has_room octets.now out.old }
    ensures text { out.new ≡ written_into out.old octets.now }
{
    if out.len() != 2 * octets.len() {
        return false;
    }
    encode(octets, out);
    true
}
