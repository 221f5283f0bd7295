// The fields of a line: words, decimal numbers, octets in hex.
#![tactic(auto)]

ghost use Rattle.std.specs.Prelude.{◌≡◌, ◌≤◌, length};
ghost use Rattle.fields.specs.Fields.{begins as begins_with, end_of, is_hex_field, number_in, read_field_into};

// The most decimal digits of a number of 64 bits.
pub const MOST_DIGITS: usize = 20;

// Where the field that starts at `from` ends: at the first space, or at the end of the line.
pub fn field_end(line: &[u8], from: usize) -> usize
    requires { from ≤ length line.now }
    ensures { (result ≡ end_of line.now from) × (from ≤ result) × (result ≤ length line.now) }
{
    let rest = &line[from..];
    let size = rest.iter().position(|c| *c == b' ').unwrap_or(rest.len());
    from + size
}

// Whether the line begins with the word.
pub fn begins(line: &[u8], word: &[u8]) -> bool
    ensures { result ≡ begins_with word.now line.now }
{
    line.starts_with(word)
}

// Reads the field at a place of the line: a space and the hex of as many octets as `out` has. Whether it is there; where it is not,
// `out` is as it was.
pub fn hex_field(line: &[u8], at: usize, out: &mut [u8]) -> bool
    ensures answer { result ≡ is_hex_field (length out.old) at line.now }
    ensures octets { out.new ≡ read_field_into out.old at line.now }
{
    if line.len() <= at || line[at] != b' ' {
        return false;
    }
    let text = &line[at + 1..];
    let size = 2 * out.len();
    if text.len() < size {
        return false;
    }
    hex_digits::read(&text[..size], out)
}

// Reads a decimal number of at most `MOST_DIGITS` digits and 64 bits.
#[tactic(auto, using(crate::proofs::NumberLaws::numbers))]
pub fn read_number(text: &[u8]) -> Option<u64>
    ensures { result ≡ number_in text.now }
{
    if text.is_empty() || MOST_DIGITS < text.len() {
        return None;
    }
    let mut value: u64 = 0;
    for c in text {
        if !c.is_ascii_digit() {
            return None;
        }
        value = value.checked_mul(10)?.checked_add((c - b'0') as u64)?;
    }
    Some(value)
}
