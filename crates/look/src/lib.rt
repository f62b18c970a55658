// A look's answer: a number that was found, or a refusal.
//
// Request P5 decides; vocabulary's specs/Look.antt says what a look answers, and each chip which places it has. Not
// modelled here: any place.
#![tactic(auto)]

ghost use Rattle.std.specs.Prelude.{◌≡◌};
ghost use Rattle.vocabulary.specs.Look.{telling_look};

use vocabulary::{Looked, Refusal};

// The answer that a look's result makes: the number at the place, or why there is none.
pub fn told(found: Result<u16, Refusal>) -> Looked
    ensures { result ≡ telling_look found }
{
    match found {
        Ok(value) => Looked { refusal: 0, value },
        Err(r) => Looked {
            refusal: u8::from(r),
            value: 0,
        },
    }
}
