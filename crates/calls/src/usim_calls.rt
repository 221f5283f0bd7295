// The calls of the card.
use crate::image_calls;
use aka::Refusal;
use call_lines::answer::Answers;
use call_lines::call::{Call, MOST_LENT, Words};
use call_lines::text::Text;
use usim::{Usim, Verdict};
use usim_image::UsimFormat;

// The words of the card.
#[derive(Clone, Copy)]
pub enum Word {
    New,
    Write,
    Read,
    Challenge,
}

impl Words for Word {
    fn of(word: &[u8]) -> Option<Word> {
        match word {
            b"card-new" => Some(Word::New),
            b"card-write" => Some(Word::Write),
            b"card-read" => Some(Word::Read),
            b"challenge" => Some(Word::Challenge),
            _ => None,
        }
    }

    fn form(self) -> &'static [u8] {
        match self {
            Word::New => b"bbKK",
            Word::Write => b"bbKKlnnnnnnnnnnnnnnnnnnnnnnnnnnnnnnnnnnnnnnnnnnnnnnnnnnnnnnnnnnnnnnnn",
            Word::Read => b"O",
            Word::Challenge => b"OOO",
        }
    }
}

impl Answers for Word {
    fn answer(self, c: &Call) -> Result<Text, Refusal> {
        match self {
            Word::New => new(c),
            Word::Write => image_calls::write::<UsimFormat>(record(c), c.lent_size(4)),
            Word::Read => Ok(read(card_in(c, 0)?)),
            Word::Challenge => Ok(challenge(card_in(c, 0)?, c)),
        }
    }
}

// The record of the image in field `i`.
pub fn card_in(c: &Call, i: usize) -> Result<Usim, Refusal> {
    Ok(usim_image::read(c.part(i))?)
}

// `card-new EDITION SET K OPC`. The buffer lent has the size of the edition's image.
fn new(c: &Call) -> Result<Text, Refusal> {
    let edition = c.edition();
    image_calls::write::<UsimFormat>(usim::new(edition, c.keys()), usim_image::size(edition))
}

// `card-write EDITION SET K OPC LENGTH P0 P1 .. P63`. LENGTH is that of the buffer lent for the image; P0 is field 5.
fn record(c: &Call) -> Usim {
    let mut places = [0u64; editions::PLACES];
    for (i, place) in places.iter_mut().enumerate() {
        *place = c.number(i + 5);
    }
    Usim {
        edition: c.edition(),
        keys: c.keys(),
        places,
    }
}

// `card-read IMAGE`.
fn read(card: Usim) -> Text {
    let mut text = Text::of_keys(b"card", card.edition, card.keys);
    for place in &card.places {
        text.put_number(*place);
    }
    text
}

// `challenge IMAGE RAND AUTN`.
fn challenge(card: Usim, c: &Call) -> Text {
    let a = usim::challenge(card, c.part(1), c.part(2));
    match a.verdict {
        Verdict::Accepted(sqn) => accepted(sqn, a),
        Verdict::Sync => Text::with_octets(b"sync", &a.auts),
        Verdict::Mac => Text::word(b"mac"),
        Verdict::Refused(number) => Text::refused(number),
    }
}

fn accepted(sqn: u64, a: usim::Answer) -> Text {
    let mut text = Text::numbered(b"accepted", sqn);
    text.put_octets(&a.res);
    text.put_octets(&a.ck);
    text.put_octets(&a.ik);
    put_image(&mut text, a.usim);
    text
}

// Puts a card by its image.
pub fn put_image(text: &mut Text, card: Usim) {
    let mut image = [0u8; usim_image::MOST];
    let size = usim_image::size(card.edition);
    let _ = usim_image::write(card, &mut image[..size]);
    text.put_octets(&image[..size]);
}
