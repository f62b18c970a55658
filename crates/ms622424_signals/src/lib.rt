// The MS622424's four timing signals.
//
// Source document 004, PIPE.IN and PIPE.OUT, and document 01, "Chip B", decide; ms622424's specs/Ms622424.antt says it
// (`pipe_out`, `signal_refusals`). The call changes nothing. Not modelled: the pipeline's delay, the pins' timing.
#![tactic(auto)]

ghost use Rattle.std.specs.Prelude.{◌≡◌, List, ℕ, ◌<◌};
ghost use Rattle.ms622424.specs.Ms622424.{pipe_out, signals as signals_call, called};
ghost use Rattle.ms622424_places.specs.Places.{handed, outcome, Does};

use ms622424_places::{Answer, State};
use ms622424_port::{accepted, refused_for};
use ms622424_range::standing_queue;
use vocabulary::Refusal;

// The first two signals with command bits 0 and 1, the others with bits 2 and 3.
#[tactic(auto, using(crate::proofs::Masks::piped_is))]
fn piped(command: u8, signals: u8) -> u8
    requires { (command < 32) × (signals < 16) }
    ensures { result ≡ pipe_out command signals }
{
    (signals & command & 3) | ((signals | command) & 12)
}

// The four timing signals. It is lent no map, since it reads none.
pub fn zk_b_sync(s: State, signals: u8, queue: &[u64]) -> Answer
    ensures { (m : List ℕ) → Does (handed s queue.now m) (outcome result queue.now m)
        (called (signals_call signals)) }
{
    if let Err(r) = standing_queue(s, queue) {
        return refused_for(r, s);
    }
    if 15 < signals {
        return refused_for(Refusal::OutOfRange, s);
    }
    accepted(piped(s.control.command, signals), 0, s)
}
