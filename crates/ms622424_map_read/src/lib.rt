// The MS622424's map, as a read of the Color Palette finds it: refused outside read mode or while entries wait, else
// the byte at the address and the counter.
//
// Source document 004, "Truth Table" and "Internal Registers", and document 01, "Chip B", decide; ms622424's
// specs/Ms622424.antt says it (`answers`, `read_refusals`). Not modelled: the pixels that a read of the map disturbs.
#![tactic(auto)]

ghost use Rattle.std.specs.Prelude.{◌≡◌, List, ℕ, ◌<◌};
ghost use Rattle.ms622424.specs.Ms622424.{InRange, reads, called};
ghost use Rattle.ms622424_places.specs.Places.{handed, view, outcome, Does};

use ms622424_places::{Answer, State};
use ms622424_port::{accepted, refused_for, step};
use vocabulary::Refusal;

// A read of the Color Palette, on a chip in range whatever queue keeps it.
pub fn read_palette(s: State, map: &[u8; 24576]) -> Answer
    requires { (s.port.address < 8192) × (s.port.counter < 3) }
    ensures { (q : List ℕ) → InRange (view (handed s q map.now))
        → Does (handed s q map.now) (outcome result q map.now) (called (reads 2)) }
{
    if s.control.readmode == 0 {
        return refused_for(Refusal::ReadMode, s);
    }
    if s.fifo.waiting != 0 {
        return refused_for(Refusal::StillWaiting, s);
    }
    let at = 3 * (s.port.address as usize) + (s.port.counter as usize);
    let port = step(s.port);
    accepted(map[at], 0, State { port, ..s })
}
