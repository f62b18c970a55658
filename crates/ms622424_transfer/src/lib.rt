// The MS622424's transfer: the oldest waiting entries move into the map, and the first position steps past them.
//
// Source document 004, "Write FIFO", document 01, "Chip B", and document 02, P7, decide; ms622424's
// specs/Ms622424.antt says it (`moves`), and ms622424_places how the places keep it. Not modelled: what the output
// shows during a transfer.
#![tactic(auto)]

ghost use Rattle.std.specs.Prelude.{◌≡◌};
ghost use Rattle.ms622424.specs.Ms622424.{InRange, made, moves};
ghost use Rattle.ms622424_places.specs.Places.{handed, view};

use ms622424_places::{Fifo, Map, Moved, Queue, State};

// The moves of `slots` slots: into the map, every place as it was.
// Stays: `InRange` asked of state and tables apart; a struct of them would be made of a call's own parameters each time.
pub fn transfer(s: State, slots: u32, queue: &Queue, map: &mut Map) -> Moved
    requires { InRange (view (handed s queue.now map.old)) }
    ensures { made result.count (view (handed result.state queue.now map.new))
        ≡ moves slots (view (handed s queue.now map.old)) }
{
    let first = s.fifo.first as usize;
    let waiting = s.fifo.waiting as usize;
    let moved = ms622424_store::store_oldest(first, waiting, slots as usize, queue, map);
    let fifo = Fifo {
        first: ((first + moved) % 64) as u8,
        waiting: (waiting - moved) as u8,
    };
    Moved {
        count: moved as u8,
        state: State { fifo, ..s },
    }
}
