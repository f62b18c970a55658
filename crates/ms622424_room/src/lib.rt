// The MS622424's room for the incoming data: a full queue moves four entries into the map.
//
// Source document 004, "Write FIFO", and document 01, "Chip B", decide; ms622424's specs/Ms622424.antt says it
// (`room_made`). Not modelled: what the output shows during a transfer.
#![tactic(auto)]

ghost use Rattle.std.specs.Prelude.{◌≡◌};
ghost use Rattle.ms622424.specs.Ms622424.{InRange, made, room_made};
ghost use Rattle.ms622424_places.specs.Places.{handed, view};

use ms622424_places::{Map, Moved, Queue, State};

// A full queue makes room for four entries.
pub fn make_room(s: State, queue: &Queue, map: &mut Map) -> Moved
    requires { InRange (view (handed s queue.now map.old)) }
    ensures { made result.count (view (handed result.state queue.now map.new))
        ≡ room_made (view (handed s queue.now map.old)) }
{
    if s.fifo.waiting == 64 {
        return ms622424_transfer::transfer(s, 4, queue, map);
    }
    Moved { count: 0, state: s }
}
