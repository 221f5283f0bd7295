// The calls of the node.
use call_lines::call;
use call_lines::call::{Call, LONGEST, Words};
use call_lines::text::Text;
use vlr::{Kind, Outcome, Reply, State, Vlr};
use vlr_steps::no_octets;

// The words of the node.
#[derive(Clone, Copy)]
enum Word {
    New,
    Record,
    Store,
    Renew,
    Answer,
    Sync,
    Ask,
    Again,
    Reject,
    Timeout,
    Abandon,
}

impl Words for Word {
    fn of(word: &[u8]) -> Option<Word> {
        match word {
            b"vlr-new" => Some(Word::New),
            b"vlr-record" => Some(Word::Record),
            b"store" => Some(Word::Store),
            b"renew" => Some(Word::Renew),
            b"answer" => Some(Word::Answer),
            b"sync" => Some(Word::Sync),
            b"ask" => Some(Word::Ask),
            b"again" => Some(Word::Again),
            b"reject" => Some(Word::Reject),
            b"timeout" => Some(Word::Timeout),
            b"abandon" => Some(Word::Abandon),
            _ => None,
        }
    }

    fn form(self) -> &'static [u8] {
        match self {
            Word::Record => b"sbVP",
            Word::Store => b"dnO",
            Word::Renew => b"dnO",
            Word::Answer => b"O",
            Word::Sync => b"O",
            _ => b"",
        }
    }
}

// The node after a line, and the answer.
#[derive(Drop)]
pub struct Answered {
    pub vlr: Vlr,
    pub text: Text,
}

// The answer to a line: a bad line where it is no call of the node.
pub fn answer(vlr: Vlr, line: &[u8]) -> Answered {
    match reply(vlr, line) {
        Some(reply) => Answered {
            vlr: reply.vlr,
            text: put_reply(&reply),
        },
        None => Answered {
            vlr,
            text: Text::word(b"bad line"),
        },
    }
}

// What the node replies to a line; nothing where it is no call of the node.
fn reply(vlr: Vlr, line: &[u8]) -> Option<Reply> {
    let mut store = [0u8; LONGEST];
    let (word, c) = call::read::<Word>(line, &mut store)?;
    Some(match word {
        Word::New => no_octets(Outcome::Done, vlr::new()),
        Word::Record => no_octets(Outcome::Done, record(&c)),
        Word::Store => vlr::store(vlr, kind_of(c.mark(0)), c.number(1), c.part(2)),
        Word::Renew => vlr::renew(vlr, kind_of(c.mark(0)), c.number(1), c.part(2)),
        Word::Answer => vlr::answer(vlr, c.part(0)),
        Word::Sync => vlr::sync(vlr, c.part(0)),
        Word::Ask => vlr::ask(vlr),
        Word::Again => vlr::again(vlr),
        Word::Reject => vlr::reject(vlr),
        Word::Timeout => vlr::timeout(vlr),
        Word::Abandon => vlr::abandon(vlr),
    })
}

// Of the digit KIND, which is a mark: so no TryFrom, whose error could not come.
fn kind_of(is_triplet: bool) -> Kind {
    if is_triplet {
        Kind::Triplet
    } else {
        Kind::Vector
    }
}

// `vlr-record STATE HELD OUT PLACES`.
fn record(c: &Call) -> Vlr {
    Vlr {
        state: state_of(c.number(0)),
        held: c.octet(1),
        queue: c.array(3),
        out: c.array(2),
    }
}

// Of a number of at most 2, as the form has it: so no TryFrom, whose error could not come.
fn state_of(number: u64) -> State {
    match number {
        0 => State::Idle,
        1 => State::Asked,
        _ => State::Resyncing,
    }
}

// The whole answer, and the record that is kept.
fn put_reply(reply: &Reply) -> Text {
    let mut text = outcome(reply.outcome);
    text.put_octets(&reply.rand);
    text.put_octets(&reply.autn);
    text.put_octets(&reply.auts);
    text.put_octets(&reply.ck);
    text.put_octets(&reply.ik);
    text.put_octets(&reply.kc);
    put_vlr(&mut text, &reply.vlr);
    text
}

fn outcome(outcome: Outcome) -> Text {
    match outcome {
        Outcome::Done => Text::word(b"done"),
        Outcome::Passed => Text::word(b"passed"),
        Outcome::Cause(number) => Text::numbered(b"cause", number as u64),
        Outcome::Refused(number) => Text::refused(number),
    }
}

fn put_vlr(text: &mut Text, vlr: &Vlr) {
    text.put_number(vlr.state as u64);
    text.put_number(vlr.held as u64);
    text.put_octets(&vlr.out);
    text.put_octets(without_zeros(&vlr.queue));
}

// The places without the zeros at their end.
fn without_zeros(places: &[u8]) -> &[u8] {
    match places.iter().rposition(|octet| *octet != 0) {
        Some(last) => &places[..last + 1],
        None => &places[..0],
    }
}
