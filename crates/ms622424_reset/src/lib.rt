// The MS622424's reset.
//
// Source document 004, RSB, and document 01, "Chip B", decide; ms622424's specs/Ms622424.antt says it (`fresh`,
// `reset_refusals`). Not modelled: as there.
#![tactic(auto)]

ghost use Rattle.std.specs.Prelude.{List, ℕ};
ghost use Rattle.ms622424.specs.Ms622424.{resets, called};
ghost use Rattle.ms622424_places.specs.Places.{handed, outcome, Does};

use ms622424::{Control, Port};
use ms622424_places::{Answer, Fifo, State};
use ms622424_port::{accepted, refused_for};
use vocabulary::Refusal;

// A reset. It is lent no map, and so keeps it; the queue is empty, whatever its places hold.
pub fn zk_b_reset(s: State, queue: &[u64]) -> Answer
    ensures { (m : List ℕ)
        → Does (handed s queue.now m) (outcome result queue.now m) (called resets) }
{
    if queue.len() != 64 {
        return refused_for(Refusal::LentLength, s);
    }
    if 8 <= s.ident.revision || 16 <= s.ident.board {
        return refused_for(Refusal::OutOfRange, s);
    }
    let fresh = State {
        port: Port {
            address: 0,
            counter: 0,
            red: 0,
            green: 0,
        },
        control: Control {
            command: 3,
            readmode: 0,
        },
        fifo: Fifo {
            first: 0,
            waiting: 0,
        },
        ..s
    };
    accepted(0, 0, fresh)
}
