// An ask at the desk: the node's Ask, the card's challenge, then what the verdict asks for.
#![tactic(auto)]

mod reports;

ghost use Rattle.std.specs.Prelude.{◌≡◌};
ghost use Rattle.vlr_record.specs.Views.{answer_of};
ghost use Rattle.bench_desk.specs.Desk.{ask as ask_of, ask_answer, card_answer, on_verdict, sqn_asked};
ghost use Rattle.bench_desk.specs.Views.{desk_answer_of, desk_of};

use bench_desk::Desk;
use bench_writer::Reply;
use usim::Verdict;

// The card's challenge, with the RAND and AUTN that the node asked.
fn challenge(desk: Desk, request: vlr::Reply) -> (Desk, Reply)
    requires { answer_of request ≡ ask_answer (desk_of desk) }
    ensures { desk_answer_of result
        ≡ on_verdict (desk_of desk) (ask_answer (desk_of desk)).vlr (card_answer (desk_of desk)) (sqn_asked (desk_of desk))
        (card_answer (desk_of desk)).verdict }
{
    let answer = usim::challenge(desk.usim, &request.rand, &request.autn);
    let Verdict::Accepted(sqn) = answer.verdict else {
        return reports::failure(desk, request.vlr, answer);
    };
    reports::response(desk, request.vlr, answer, sqn)
}

// One authentication of the card by the node.
#[tactic(auto, using(bench_desk::proofs::Refusals::refusals), unfolding(bench_desk::specs::Desk::ask, bench_desk::specs::Desk::ask_answer))]
pub fn ask(desk: Desk) -> (Desk, Reply)
    ensures { desk_answer_of result ≡ ask_of (desk_of desk) }
{
    let request = vlr::ask(desk.vlr);
    match bench_desk::node_refusal(request.outcome) {
        Some(number) => bench_desk::refused(desk, number),
        None => challenge(desk, request),
    }
}
