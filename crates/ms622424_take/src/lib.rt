// The MS622424's Color Palette Buffer with room in the queue: red and green are kept, blue completes the colour.
//
// Source document 004, "Write FIFO", and document 01, "Chip B", decide; ms622424's specs/Ms622424.antt says it
// (`taken`). Not modelled: as in ms622424_palette.
#![tactic(auto)]

ghost use Rattle.std.specs.Prelude.{◌≡◌, List, ℕ, ◌<◌};
ghost use Rattle.ms622424.specs.Ms622424.{selected, taken};
ghost use Rattle.ms622424_places.specs.Places.{handed, view};

use ms622424::Port;
use ms622424_places::{Queue, State};

// A byte for the palette, with room in the queue: red and green go to the buffer, blue completes.
pub fn take_byte(s: State, byte: u8, queue: &mut Queue) -> State
    requires { (s.fifo.first < 64) × (s.fifo.waiting < 64) }
    ensures { (m : List ℕ) → view (handed result queue.new m)
        ≡ taken (selected s.port) byte (view (handed s queue.old m)) }
{
    match s.port.counter {
        0 => {
            let port = Port {
                counter: 1,
                red: byte,
                ..s.port
            };
            State { port, ..s }
        }
        1 => {
            let port = Port {
                counter: 2,
                green: byte,
                ..s.port
            };
            State { port, ..s }
        }
        _ => {
            let n = ms622424_queue::put(s, byte, queue);
            let port = Port {
                address: (s.port.address % 8192 + 1) % 8192,
                counter: 0,
                ..s.port
            };
            State { port, ..n }
        }
    }
}
