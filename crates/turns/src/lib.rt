// What a log line's call answers and leaves: how the outcome of a chip's call is told, and the expander's answer.
//
// The replay's description decides; specs/Turns.antt says how an outcome is told, of any chip. Which call of a chip
// a line makes is said for each chip in a crate of its own: turns_a, turns_b, turns_c. Not modelled: which chip a call
// goes to, which is the board's to say.
#![tactic(auto)]

ghost use Rattle.std.specs.Prelude.{◌≡◌};
ghost use Rattle.vocabulary.specs.Look.{looking};
ghost use Rattle.vocabulary.specs.Pixel.{showing};
ghost use Rattle.answers.specs.Answers.{bad_text, news_text, told as told_text};
ghost use Rattle.turns.specs.Turns.{sighted, poured, expand_text};

use answers::{News, Text};
use vocabulary::{Colour, Looked, Shown};

// A chip's state after a call, and the answer.
#[derive(Clone, Copy)]
pub struct Taken<S> {
    pub state: S,
    pub text: Text,
}

// Stays: the refusal is a number, as the chips' C answers (Answer, Looked, Shown) have it.
// A call that the chip has: its refusal, 0 for none, or else what it tells.
pub fn told<S: Drop>(state: S, refusal: u8, news: News) -> Taken<S>
    ensures leaves { result.state ≡ state }
    ensures says { result.text ≡ told_text refusal (news_text news) }
{
    Taken {
        state,
        text: answers_told::told(refusal, news),
    }
}

// A look: the state as it is, and the number at the place.
pub fn look<S: Drop>(state: S, found: Looked) -> Taken<S>
    ensures leaves { result.state ≡ state }
    ensures says { result.text ≡ (sighted (looking found state)).text }
{
    told(state, found.refusal, News::Look(found.value))
}

// A pixel: the state as it is, and the colour.
pub fn shown<S: Drop>(state: S, found: Shown) -> Taken<S>
    ensures leaves { result.state ≡ state }
    ensures says { result.text ≡ (poured (showing found state)).text }
{
    let colour = Colour {
        red: found.red,
        green: found.green,
        blue: found.blue,
    };
    told(state, found.refusal, News::Shown(colour))
}

// A call that the chip has not: the state as it is.
pub fn bad<S: Drop>(state: S) -> Taken<S>
    ensures leaves { result.state ≡ state }
    ensures says { result.text ≡ bad_text }
{
    Taken {
        state,
        text: answers::bad(),
    }
}

// An expansion's answer, whatever the chip.
pub fn expand(width: u8, v: u16) -> Text
    ensures { result ≡ expand_text width v }
{
    match expand_widths::expand(u32::from(width), u32::from(v)) {
        Ok(t) => answers_told::told(0, News::Ten(t)),
        Err(r) => answers_told::told(u8::from(r), News::Ten(0)),
    }
}
