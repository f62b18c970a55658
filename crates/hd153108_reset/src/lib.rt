// The HD153108's reset (chip A). It is lent no table, and keeps both.
//
// Document 01, "Chip A", decides; the rule is `called` of `resets` in hd153108's specs/Hd153108.antt. Not modelled: as
// there.
#![tactic(auto)]

ghost use Rattle.std.specs.Prelude.{◌≡◌, List, ℕ};
ghost use Rattle.hd153108.specs.Hd153108.{chip, outcome, resets, called};

use hd153108::{Answer, Clock, State};
use hd153108_port::accepted;

// A reset, from any state at all, whatever the tables are.
pub fn zk_a_reset(s: State) -> Answer
    ensures { (cs os : List ℕ) → outcome result cs os ≡ called resets (chip s cs os) }
{
    let zeroed = State {
        address: 0,
        pointer: 0,
        red: 0,
        green: 0,
        readmask: 0,
        blinkmask: 0,
        control: 0,
        clock: Clock {
            timing: 0,
            position: 0,
        },
    };
    accepted(0, zeroed)
}
