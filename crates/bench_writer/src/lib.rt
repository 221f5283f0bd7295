// The answers of the bench: what they can be, and how they are written.
#![tactic(auto)]

mod text;

ghost use Rattle.std.specs.Prelude.{◌≡◌, ◌++◌, ◌≤◌, length, take};
ghost use Rattle.bench_writer.specs.Replies.{held_word, labelled, labelled_two, newline, refused_word, text_of, written};
ghost use Rattle.bench_writer.specs.Views.{reply_of, written_of};

use text::Text;

// A buffer of so many bytes has room for every text.
pub const ROOM: usize = 96;

// What the numbers are: count stored and vectors held; the accepted SQN and vectors left; the number of a cause or of a refusal; SEQ_HE,
// next index, SEQ_MS and its index. A caller may have any number written, so a refusal has its number and no name.
#[derive(Clone, Copy, Drop)]
pub enum Reply {
    KeyOk,
    PutOk,
    BadLine,
    Stored(u64, u64),
    Kept(u64, u64),
    Reset(u64, u64),
    Pass(u64, u64),
    Sync,
    Mac,
    Cause(u64),
    Refused(u64),
    Shown(u64, u64, u64, u64),
}

// What a batch gave: its count, and the vectors held.
#[tactic(auto, using(crate::proofs::Texts::joined))]
fn batch(word: &[u8], count: u64, held: u64) -> Text
    requires { length word.now ≤ length refused_word }
    ensures { take result.used result.bytes ≡ labelled_two word.now count held_word held ++ newline }
{
    Text::new()
        .put(word)
        .number(count)
        .put(b" held ")
        .number(held)
        .put(b"\n")
}

// A word and a number, and nothing else.
#[tactic(auto, using(crate::proofs::Texts::joined))]
fn numbered(word: &[u8], number: u64) -> Text
    requires { length word.now ≤ length refused_word }
    ensures { take result.used result.bytes ≡ labelled word.now number ++ newline }
{
    Text::new().put(word).number(number).put(b"\n")
}

// The text of an answer.
#[tactic(auto, using(crate::proofs::Texts::joined), unfolding(crate::specs::Replies::text_of))]
fn spelled(reply: Reply) -> Text
    ensures { take result.used result.bytes ≡ text_of (reply_of reply) }
{
    match reply {
        Reply::KeyOk => Text::new().put(b"key ok\n"),
        Reply::PutOk => Text::new().put(b"put ok\n"),
        Reply::BadLine => Text::new().put(b"bad line\n"),
        Reply::Stored(count, held) => batch(b"stored ", count, held),
        Reply::Kept(count, held) => batch(b"kept ", count, held),
        Reply::Reset(count, held) => batch(b"reset ", count, held),
        Reply::Pass(sqn, left) => Text::new()
            .put(b"pass ")
            .sqn(sqn)
            .put(b" left ")
            .number(left)
            .put(b"\n"),
        Reply::Sync => Text::new().put(b"sync\n"),
        Reply::Mac => Text::new().put(b"mac\n"),
        Reply::Cause(number) => numbered(b"cause ", number),
        Reply::Refused(number) => numbered(b"refused ", number),
        Reply::Shown(seqhe, next, seqms, index) => {
            let centre = Text::new()
                .put(b"auc ")
                .number(seqhe)
                .put(b" ")
                .number(next);
            centre
                .put(b" card ")
                .number(seqms)
                .put(b" ")
                .number(index)
                .put(b"\n")
        }
    }
}

// Writes the text of `reply` to the front of `out`, and returns its length. Where `out` has less than `ROOM` bytes, it stays as it
// was, and 0 is returned.
#[tactic(auto, using(crate::proofs::Texts::no_room, crate::proofs::Texts::with_room), unfolding(crate::specs::Replies::written))]
pub fn write(reply: Reply, out: &mut [u8]) -> usize
    ensures { written_of result out.new ≡ written (reply_of reply) out.old }
{
    if out.len() < ROOM {
        return 0;
    }
    octets::copy(spelled(reply).written(), out)
}
