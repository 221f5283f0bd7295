// Answering the calls that leave nothing behind for the next line.
use crate::call;
use crate::call::{Call, LONGEST, Words};
use crate::text::Text;
use aka::Refusal;

// The words of such calls, and what each answers: a text, or a refusal that has no more to say.
pub trait Answers: Words {
    fn answer(self, c: &Call) -> Result<Text, Refusal>;
}

// The answer to a line; none where it is no call by these words.
pub fn answer<A: Answers>(line: &[u8]) -> Option<Text> {
    let mut store = [0u8; LONGEST];
    let (word, c) = call::read::<A>(line, &mut store)?;
    Some(match word.answer(&c) {
        Ok(text) => text,
        Err(refusal) => Text::refused(refusal.number()),
    })
}
