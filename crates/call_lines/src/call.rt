// Reading the line of a call by its form.
ghost use Rattle.std.specs.Prelude.{◌≤◌, ◌≡◌};
ghost use Rattle.call_lines.specs.Limits.{longest, most_fields, most_lent};

use functions::Keys;

// The bytes of the longest line that is answered.
pub const LONGEST: usize = 4096;

// The octets of the largest buffer that is lent for an image or a batch.
pub const MOST_LENT: usize = 512;

// The sizes that such a buffer may have, 0 among them.
const LENT_SIZES: u64 = MOST_LENT as u64 + 1;

// The sizes that the octets of a field may have: a field is shorter than its line.
const SIZES: u64 = LONGEST as u64 + 1;

// The fields of a line.
const MOST_FIELDS: usize = 80;

// A field: where the space before it stands, and its number or how many octets it has.
#[derive(Clone, Copy)]
struct Field {
    start: usize,
    value: u64,
}

// A call: its fields, of which those behind the last are zero, and the store. The octets of a field stand there from the place of the space
// before it.
#[derive(Clone, Copy)]
pub struct Call<'a> {
    fields: [Field; MOST_FIELDS],
    store: &'a [u8],
}

// ---- the line

// The words of some calls: which one a text is, and the form of its fields.
pub trait Words: Copy {
    fn of(word: &[u8]) -> Option<Self>;

    fn form(self) -> &'static [u8];
}

// A form has a letter for each field, a small one for a number and a capital one for octets: `d` one digit, 0 or 1, `s` a state, `b` what
// has one octet, `l` the length of a lent buffer, `n` any number; `A` AMF, `K` a key, `V` the node's outstanding place, `P` all its
// places, `O` any octets. Letters, and no enum: so a form is one word, also where it has seventy fields.
// Whether the number, or how many octets there are, is right for the letter.
fn fits(kind: u8, size: u64) -> bool {
    match kind {
        b'd' => size <= 1,
        b's' => size <= 2,
        b'b' => size <= 255,
        b'l' => size <= MOST_LENT as u64,
        b'A' => size == aka::AMF_SIZE as u64,
        b'K' => size == aka::KEY_SIZE as u64,
        b'V' => size == aka::PLACE_SIZE as u64,
        b'P' => size <= aka::QUEUE_SIZE as u64,
        _ => true,
    }
}

// Reads octets in hex to the front of `out`, and says how many they are; `-` stands for none, an empty text for nothing.
fn read_octets(text: &[u8], out: &mut [u8]) -> Option<u64> {
    if text == b"-".as_slice() {
        return Some(0);
    }
    let size = text.len() / 2;
    if size == 0 || out.len() < size {
        return None;
    }
    if hex_digits::read(text, &mut out[..size]) {
        Some(size as u64)
    } else {
        None
    }
}

// A number has up to 20 digits, a digit is alone.
fn most_digits(kind: u8) -> usize {
    if kind == b'd' { 1 } else { fields::MOST_DIGITS }
}

fn read_value(kind: u8, text: &[u8], out: &mut [u8]) -> Option<u64> {
    if kind < b'a' {
        return read_octets(text, out);
    }
    if most_digits(kind) < text.len() {
        return None;
    }
    fields::read_number(text)
}

// Reads the field behind the space at `at`: its value, and where it ends. The store is as long as the longest line that is a call.
fn read_field(kind: u8, line: &[u8], at: usize, store: &mut [u8]) -> Option<(u64, usize)> {
    if line.len() <= at || store.len() < line.len() {
        return None;
    }
    let start = at + 1;
    let end = fields::field_end(line, start);
    let value = read_value(kind, &line[start..end], &mut store[at..end])?;
    if fits(kind, value) {
        Some((value, end))
    } else {
        None
    }
}

// The most fields of a line, as the definition has it.
fn fields_held() -> usize
    ensures { result ≡ most_fields }
{
    MOST_FIELDS
}

// The call of a line, one field for each letter of the form; none where the fields are not so, or more stands behind them.
fn read_fields<'a>(form: &[u8], line: &[u8], from: usize, store: &'a mut [u8]) -> Option<Call<'a>> {
    let mut fields = [Field { start: 0, value: 0 }; MOST_FIELDS];
    if fields_held() < form.len() {
        return None;
    }
    let mut at = from;
    for (field, kind) in fields.iter_mut().zip(form) {
        let (value, end) = read_field(*kind, line, at, store)?;
        *field = Field { start: at, value };
        at = end;
    }
    if at == line.len() {
        Some(Call { fields, store })
    } else {
        None
    }
}

// The word that a line begins with, and the call; none where the word is not among these, or the fields are not of its form.
pub fn read<'a, W: Words>(line: &[u8], store: &'a mut [u8]) -> Option<(W, Call<'a>)> {
    let end = fields::field_end(line, 0);
    let word = W::of(&line[..end])?;
    let call = read_fields(word.form(), line, end, store)?;
    Some((word, call))
}

// ---- the fields

impl<'a> Call<'a> {
    fn field(&self, i: usize) -> Field {
        match self.fields.get(i) {
            Some(field) => *field,
            None => Field { start: 0, value: 0 },
        }
    }

    // The number of field `i`.
    pub fn number(&self, i: usize) -> u64 {
        self.field(i).value
    }

    // The number of field `i`, one of at most 255.
    pub fn octet(&self, i: usize) -> u8 {
        (self.number(i) % 256) as u8
    }

    // The number of field `i`, the length of a buffer that is lent.
    pub fn lent_size(&self, i: usize) -> usize
        ensures { result ≤ most_lent }
    {
        (self.number(i) % LENT_SIZES) as usize
    }

    // Whether field `i`, a digit, is 1.
    pub fn mark(&self, i: usize) -> bool {
        self.number(i) == 1
    }

    // How many octets field `i` has.
    pub fn size(&self, i: usize) -> usize
        ensures { result ≤ longest }
    {
        (self.number(i) % SIZES) as usize
    }

    // The octets of field `i`.
    pub fn part(&self, i: usize) -> &'a [u8] {
        let field = self.field(i);
        if self.store.len() < field.start {
            return &self.store[..0];
        }
        console::first_bytes(&self.store[field.start..], field.value as usize)
    }

    // The same at the front of an array, and zeros behind them; zeros alone where they are more.
    pub fn array<const N: usize>(&self, i: usize) -> [u8; N] {
        let mut array = [0u8; N];
        let part = self.part(i);
        if part.len() <= N {
            array[..part.len()].copy_from_slice(part);
        }
        array
    }

    // The field EDITION, with which the line of a record begins.
    pub fn edition(&self) -> u8 {
        self.octet(0)
    }

    // The fields `SET K OPC` behind it.
    pub fn keys(&self) -> Keys {
        Keys {
            set: self.octet(1),
            k: self.array(2),
            opc: self.array(3),
        }
    }
}
