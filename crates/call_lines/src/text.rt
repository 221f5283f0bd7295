// Putting the answer to a call.
use crate::call::LONGEST;
use functions::Keys;

// The bytes of the longest answer: that of a `phone` that is refused. Its fields without RAND and AUTN come back, and it has 31 bytes more
// than its line.
pub const LONGEST_ANSWER: usize = LONGEST + 31;

// The bytes of an answer without its newline, so far. An array with its size, since there is no heap. The bench has a text of its own,
// which asks for room and promises each byte; this one is cut where it is full.
#[derive(Clone, Copy)]
pub struct Text {
    bytes: [u8; LONGEST_ANSWER],
    size: usize,
}

// Writes octets in hex to the front of a buffer that has room for them; `-` stands for none. Returns where they end.
fn write_hex(octets: &[u8], out: &mut [u8]) -> usize {
    if octets.len() == 0 {
        return console::append(out, 0, b"-");
    }
    if out.len() / 2 < octets.len() {
        return 0;
    }
    let end = 2 * octets.len();
    hex_digits::write(octets, &mut out[..end]);
    end
}

impl Text {
    // A word alone.
    pub fn word(word: &[u8]) -> Text {
        let mut text = Text {
            bytes: [0; LONGEST_ANSWER],
            size: 0,
        };
        text.put(word);
        text
    }

    // A word and a number.
    pub fn numbered(word: &[u8], n: u64) -> Text {
        let mut text = Text::word(word);
        text.put_number(n);
        text
    }

    pub fn refused(number: u8) -> Text {
        Text::numbered(b"refused", number as u64)
    }

    // A word and octets. Two lines like those above: to say what is put by a parameter would take more.
    pub fn with_octets(word: &[u8], octets: &[u8]) -> Text {
        let mut text = Text::word(word);
        text.put_octets(octets);
        text
    }

    // A word and the keys of a record.
    pub fn of_keys(word: &[u8], edition: u8, keys: Keys) -> Text {
        let mut text = Text::numbered(word, edition as u64);
        text.put_number(keys.set as u64);
        text.put_octets(&keys.k);
        text.put_octets(&keys.opc);
        text
    }

    fn put(&mut self, part: &[u8]) {
        self.size = console::append(&mut self.bytes, self.size, part);
    }

    // Puts a space and a number.
    pub fn put_number(&mut self, n: u64) {
        let mut digits = [0u8; fields::MOST_DIGITS];
        let k = io::decimal(n, &mut digits);
        self.put(b" ");
        self.put(&digits[..k]);
    }

    // Puts a space and octets; nothing where the longest line has no room for them.
    pub fn put_octets(&mut self, octets: &[u8]) {
        if LONGEST / 2 <= octets.len() {
            return;
        }
        let mut digits = [0u8; LONGEST];
        let end = write_hex(octets, &mut digits);
        self.put(b" ");
        self.put(console::first_bytes(&digits, end));
    }

    // The text so far.
    pub fn bytes(&self) -> &[u8] {
        console::first_bytes(&self.bytes, self.size)
    }
}
