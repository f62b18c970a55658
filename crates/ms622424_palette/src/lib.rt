// The MS622424's Color Palette Buffer, as a write finds it: refused in read mode, else room is made, then the byte.
//
// Source document 004, "Write FIFO", and document 01, "Chip B", decide; ms622424's
// specs/Ms622424.antt says it (`written`). Not modelled: what the output shows during a transfer.
#![tactic(auto)]

ghost use Rattle.std.specs.Prelude.{◌≡◌};
ghost use Rattle.ms622424.specs.Ms622424.{InRange, palette, written, writes, called};
ghost use Rattle.ms622424_places.specs.Places.{handed, view, outcome, seen, Does};

use ms622424_places::{Answer, Map, Queue, State};
use ms622424_port::{accepted, refused_for};
use vocabulary::Refusal;

// A byte with room made for it.
fn with_room(s: State, byte: u8, queue: &mut Queue, map: &mut Map) -> Answer
    requires { InRange (view (handed s queue.old map.old)) }
    ensures { seen (outcome result queue.new map.new)
        ≡ written palette byte (view (handed s queue.old map.old)) }
{
    let m = ms622424_room::make_room(s, queue, map);
    accepted(0, m.count, ms622424_take::take_byte(m.state, byte, queue))
}

// A write to the Color Palette Buffer: refused in read mode.
pub fn write_palette(s: State, byte: u8, queue: &mut Queue, map: &mut Map) -> Answer
    requires { InRange (view (handed s queue.old map.old)) }
    ensures { Does (handed s queue.old map.old)
        (outcome result queue.new map.new) (called (writes 2 byte)) }
{
    if s.control.readmode == 1 {
        return refused_for(Refusal::ReadMode, s);
    }
    with_room(s, byte, queue, map)
}
