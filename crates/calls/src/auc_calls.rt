// The calls of the centre.
use crate::image_calls;
use aka::Refusal;
use auc::{Auc, Outcome};
use auc_image::AucFormat;
use call_lines::answer::Answers;
use call_lines::call::{Call, MOST_LENT, Words};
use call_lines::text::Text;

// The words of the centre.
#[derive(Clone, Copy)]
pub enum Word {
    New,
    Write,
    Read,
    Order,
    Resync,
    Vector,
    Triplets,
}

impl Words for Word {
    fn of(word: &[u8]) -> Option<Word> {
        match word {
            b"auc-new" => Some(Word::New),
            b"auc-write" => Some(Word::Write),
            b"auc-read" => Some(Word::Read),
            b"order" => Some(Word::Order),
            b"resync" => Some(Word::Resync),
            b"vector" => Some(Word::Vector),
            b"triplets" => Some(Word::Triplets),
            _ => None,
        }
    }

    fn form(self) -> &'static [u8] {
        match self {
            Word::New => b"bbKKA",
            Word::Write => b"bbKKAlnb",
            Word::Read => b"O",
            Word::Order => b"OnOl",
            Word::Resync => b"OnOOOl",
            Word::Vector => b"On",
            Word::Triplets => b"Ol",
        }
    }
}

impl Answers for Word {
    fn answer(self, c: &Call) -> Result<Text, Refusal> {
        match self {
            Word::New => image_calls::write::<AucFormat>(new(c), auc_image::SIZE),
            Word::Write => image_calls::write::<AucFormat>(record(c), c.lent_size(5)),
            Word::Read => Ok(read(record_in(c)?)),
            Word::Order => Ok(order(record_in(c)?, c)),
            Word::Resync => Ok(resync(record_in(c)?, c)),
            Word::Vector => Ok(vector(c)),
            Word::Triplets => triplets(c),
        }
    }
}

// The record of the image in the first field.
fn record_in(c: &Call) -> Result<Auc, Refusal> {
    Ok(auc_image::read(c.part(0))?)
}

// `auc-new EDITION SET K OPC AMF`.
fn new(c: &Call) -> Auc {
    auc::new(c.edition(), c.keys(), c.array(4))
}

// `auc-write EDITION SET K OPC AMF LENGTH SEQHE NEXT`. LENGTH is that of the buffer lent for the image.
fn record(c: &Call) -> Auc {
    Auc {
        seqhe: c.number(6),
        next: c.octet(7),
        ..new(c)
    }
}

// `vector BATCH PLACE`.
fn vector(c: &Call) -> Text {
    Text::with_octets(b"vector", auc::vector_at(c.part(0), c.number(1)))
}

// `triplets BATCH LENGTH`. LENGTH is that of the buffer lent for the triplets.
fn triplets(c: &Call) -> Result<Text, Refusal> {
    let mut buffer = [0u8; MOST_LENT];
    let triplets = &mut buffer[..c.lent_size(1)];
    triplets::convert(c.part(0), triplets)?;
    Ok(Text::with_octets(b"triplets", triplets))
}

// `auc-read IMAGE`.
fn read(auc: Auc) -> Text {
    let mut text = Text::of_keys(b"auc", auc.edition, auc.keys);
    text.put_octets(&auc.amf);
    text.put_number(auc.seqhe);
    text.put_number(auc.next as u64);
    text
}

// `order IMAGE COUNT RANDS LENGTH`. LENGTH is that of the buffer lent for the batch.
fn order(auc: Auc, c: &Call) -> Text {
    let mut batch = [0u8; MOST_LENT];
    let batch = &mut batch[..c.lent_size(3)];
    let answer = auc::order(auc, c.number(1), c.part(2), batch);
    given(answer, batch)
}

// `resync IMAGE COUNT RAND AUTS RANDS LENGTH`.
fn resync(auc: Auc, c: &Call) -> Text {
    let mut batch = [0u8; MOST_LENT];
    let batch = &mut batch[..c.lent_size(5)];
    let answer = auc::resynchronise(auc, c.number(1), c.part(2), c.part(3), c.part(4), batch);
    given(answer, batch)
}

// The outcome, and behind it the image of the next record and the batch. A refusal gives no vectors.
fn given(answer: auc::Answer, batch: &[u8]) -> Text {
    let mut text = outcome(answer.outcome, answer.n);
    if answer.n == 0 {
        return text;
    }
    let mut image = [0u8; auc_image::SIZE];
    let _ = auc_image::write(answer.auc, &mut image);
    text.put_octets(&image);
    text.put_octets(batch);
    text
}

fn outcome(outcome: Outcome, n: u8) -> Text {
    match outcome {
        Outcome::Given => Text::numbered(b"given", n as u64),
        Outcome::Kept => Text::numbered(b"kept", n as u64),
        Outcome::Reset => Text::numbered(b"reset", n as u64),
        Outcome::Refused(number) => Text::refused(number),
        Outcome::Repeated(first, second) => repeated(first, second),
    }
}

// Refusal 4 with its pair.
fn repeated(first: u8, second: u8) -> Text {
    let mut text = Text::refused(Refusal::SameRand.number());
    text.put_number(first as u64);
    text.put_number(second as u64);
    text
}
