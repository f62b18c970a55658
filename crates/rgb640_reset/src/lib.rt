// Chip C, the palette port of the RGB640: the reset.
//
// Document 01, "Chip C", decides; the rule is `called resets` of rgb640's specs/Rgb640.antt. Not modelled: as there.
#![tactic(auto)]

ghost use Rattle.std.specs.Prelude.{◌≡◌, List, ℕ};
ghost use Rattle.rgb640.specs.Rgb640.{chip, outcome, resets, called};

use rgb640::{Answer, Colour, State};
use rgb640_port::accepted;

// The chip after a reset: whatever the state was, it is zero. No table is lent, so that it stays.
pub fn zk_c_reset(s: State) -> Answer
    ensures { (t : List ℕ) → outcome result t ≡ called resets (chip s t) }
{
    let f = Colour {
        red: 0,
        green: 0,
        blue: 0,
    };
    let n = State {
        index: 0,
        red: 0,
        green: 0,
        fetched: f,
        place: 0,
        update: 0,
    };
    accepted(0, n)
}
