// The answer to a call: its refusal, or else what it tells.
//
// The replay's answer lines decide; `told` of answers' specs/Answers.antt says which, and the call equals it for any
// number that the types hold. Not modelled: a sheet's 265 lines.
#![tactic(auto, using(answers::proofs::Digits::told_refused, answers::proofs::Digits::told_done))]

ghost use Rattle.std.specs.Prelude.{◌≡◌};
ghost use Rattle.answers.specs.Answers.{news_text, told as told_text};

use answers::{News, Text};

// Stays: the refusal is a number, as the chips' C answers have it.
// A call's refusal, 0 for none, or else what it tells. Inlined: an answer known to tell nothing is made at once.
#[inline(always)]
pub fn told(refusal: u8, news: News) -> Text
    ensures { result ≡ told_text refusal (news_text news) }
{
    match (refusal, news) {
        (0, News::Done) => answers::ok(),
        (0, news) => answers_line::line(news),
        (n, _) => answers_line::refused(n),
    }
}
