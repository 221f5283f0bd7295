// The calls of the handset.
use crate::usim_calls;
use aka::Refusal;
use call_lines::answer::Answers;
use call_lines::call::{Call, LONGEST, Words};
use call_lines::text::Text;
use handset::{Outcome, Told};

// The words of the handset.
#[derive(Clone, Copy)]
pub enum Word {
    Phone,
    Clear,
}

impl Words for Word {
    fn of(word: &[u8]) -> Option<Word> {
        match word {
            b"phone" => Some(Word::Phone),
            b"phone-clear" => Some(Word::Clear),
            _ => None,
        }
    }

    fn form(self) -> &'static [u8] {
        match self {
            Word::Phone => b"dOOOOO",
            Word::Clear => b"dO",
        }
    }
}

impl Answers for Word {
    fn answer(self, c: &Call) -> Result<Text, Refusal> {
        match self {
            Word::Phone => phone(c),
            Word::Clear => Ok(clear(c)),
        }
    }
}

// `phone HELD STORED IMAGE RAND AUTN FRESH`. The image is read first. It is the first of the three calls, and `show` and `keep` are the
// others.
fn phone(c: &Call) -> Result<Text, Refusal> {
    let card = usim_calls::card_in(c, 2)?;
    let held = c.mark(0);
    let mut stored: [u8; LONGEST] = c.array(1);
    let stored = &mut stored[..c.size(1)];
    let mut fresh: [u8; LONGEST] = c.array(5);
    let fresh = &mut fresh[..c.size(5)];
    let rand = c.part(3);
    let told = handset::answer(card, held, stored, rand, c.part(4), fresh);
    let mut text = show(told, held, stored, rand, fresh);
    keep(&mut text, told, held, stored, rand, fresh);
    Ok(text)
}

// The second: the outcome, the part shown and AUTS are put.
fn show(told: Told, held: bool, stored: &[u8], rand: &[u8], fresh: &[u8]) -> Text {
    let mut text = outcome(told.outcome);
    text.put_octets(handset::shown(told.outcome, held, stored, rand, fresh));
    text.put_octets(&told.auts);
    text
}

// The third: behind them the store, the fresh octets and the card. Where a length is wrong, the store keeps its mark.
fn keep(text: &mut Text, told: Told, held: bool, stored: &mut [u8], rand: &[u8], fresh: &[u8]) {
    let held = handset::keep(told.outcome, held, stored, rand, fresh).unwrap_or(held);
    put_store(text, held, stored);
    text.put_octets(fresh);
    usim_calls::put_image(text, told.usim);
}

fn outcome(outcome: Outcome) -> Text {
    match outcome {
        Outcome::Repeated => Text::word(b"repeat"),
        Outcome::Accepted => Text::word(b"fresh"),
        Outcome::Sync => Text::word(b"sync"),
        Outcome::Mac => Text::word(b"mac"),
        Outcome::Refused(number) => Text::refused(number),
    }
}

fn put_store(text: &mut Text, held: bool, stored: &[u8]) {
    text.put_number(held as u64);
    text.put_octets(stored);
}

// `phone-clear HELD STORED`.
fn clear(c: &Call) -> Text {
    let mut stored: [u8; LONGEST] = c.array(1);
    let stored = &mut stored[..c.size(1)];
    let held = c.mark(0);
    let (mut text, held) = match handset::clear(held, stored) {
        Ok(held) => (Text::word(b"done"), held),
        Err(refusal) => (Text::refused(refusal.number()), held),
    };
    put_store(&mut text, held, stored);
    text
}
