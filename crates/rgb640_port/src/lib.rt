// Chip C, the palette port of the RGB640: the answers, which every call shares.
//
// Source document 001, sections 9.3 and 9.4.1, and document 01, "Chip C", decide; the rules are in rgb640's
// specs/Rgb640.antt. Not modelled: as there.
#![tactic(auto)]

ghost use Rattle.std.specs.Prelude.{◌≡◌};
ghost use Rattle.vocabulary.specs.Refusal.{number};
ghost use Rattle.rgb640.specs.Rgb640.{accept, refuse};

use rgb640::{Answer, State};
use vocabulary::Refusal;

// A refusal: the state as given, value 0.
pub fn refused(n: u8, s: State) -> Answer
    ensures { result ≡ refuse n s }
{
    Answer {
        refusal: n,
        value: 0,
        state: s,
    }
}

// The same, for one of the nine refusals.
pub fn refused_for(r: Refusal, s: State) -> Answer
    ensures { result ≡ refuse (number r) s }
{
    refused(u8::from(r), s)
}

// An accepted call: what it answers, and the state after it.
pub fn accepted(value: u8, s: State) -> Answer
    ensures { result ≡ accept value s }
{
    Answer {
        refusal: 0,
        value,
        state: s,
    }
}
