// The MS622424's registers that a read answers by their parts or that it moves: the Color Buffer Register, the
// identification, the end of read mode.
//
// Source document 004, "Internal Registers", and document 01, "Chip B", decide; ms622424's specs/Ms622424.antt says it
// (`answers`, `buffer_stepped`). What is promised is of a chip in range, whatever tables keep it. Not modelled: as
// there.
#![tactic(auto)]

ghost use Rattle.std.specs.Prelude.{List, ℕ, ◌<◌};
ghost use Rattle.ms622424.specs.Ms622424.{InRange, reads, called};
ghost use Rattle.ms622424_places.specs.Places.{handed, view, outcome, Does};

use ms622424::{Control, Port};
use ms622424_places::{Answer, State};
use ms622424_port::{accepted, refused_for};
use vocabulary::Refusal;

// The Color Buffer Register: red, then green; there is no blue.
pub fn read_buffer(s: State) -> Answer
    ensures { (q m : List ℕ) → InRange (view (handed s q m))
        → Does (handed s q m) (outcome result q m) (called (reads 5)) }
{
    match s.port.counter {
        0 => {
            let port = Port {
                counter: 1,
                ..s.port
            };
            accepted(s.port.red, 0, State { port, ..s })
        }
        1 => accepted(s.port.green, 0, s),
        _ => refused_for(Refusal::NoAccess, s),
    }
}

// The board number and the revision.
pub fn read_ident(s: State) -> Answer
    requires { (s.ident.board < 16) × (s.ident.revision < 8) }
    ensures { (q m : List ℕ) → InRange (view (handed s q m))
        → Does (handed s q m) (outcome result q m) (called (reads 6)) }
{
    accepted(16 * s.ident.board + s.ident.revision, 0, s)
}

// Read mode ends.
pub fn end_read_mode(s: State) -> Answer
    ensures { (q m : List ℕ) → InRange (view (handed s q m))
        → Does (handed s q m) (outcome result q m) (called (reads 7)) }
{
    let control = Control {
        readmode: 0,
        ..s.control
    };
    accepted(0, 0, State { control, ..s })
}
