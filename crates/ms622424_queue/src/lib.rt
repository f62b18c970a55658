// The MS622424's lent queue: an entry put last.
//
// Source document 004, "Write FIFO", and document 01, "Chip B", decide; ms622424's specs/Ms622424.antt says it
// (`complete`), and ms622424_places how the places keep it. The code that knows the places is this crate and
// ms622424_queue_range with ms622424_gather (their range), ms622424_store and ms622424_transfer. Not modelled: as in
// ms622424.
#![tactic(auto)]

ghost use Rattle.std.specs.Prelude.{◌≡◌, List, ℕ, ◌<◌};
ghost use Rattle.ms622424.specs.Ms622424.{complete, completed};
ghost use Rattle.ms622424_places.specs.Places.{unpacked, handed, view};

use ms622424::Port;
use ms622424_places::{Fifo, Queue, State};

// The entry that a blue byte completes, as a place holds it.
// Stays: one number made by sums, since C programs lend the places as numbers, and `packed` is this sum.
fn entry(p: Port, blue: u8) -> u64
    ensures { unpacked result ≡ completed p blue }
{
    (p.red as u64) + 256 * (p.green as u64) + 65536 * (blue as u64) + 16777216 * (p.address as u64)
}

// The entry that a blue byte completes goes to the queue's end, place (first + waiting) modulo 64.
pub fn put(s: State, blue: u8, queue: &mut Queue) -> State
    requires { (s.fifo.first < 64) × (s.fifo.waiting < 64) }
    ensures { (m : List ℕ) → view (handed result queue.new m)
        ≡ complete (completed s.port blue) (view (handed s queue.old m)) }
{
    let last = ((s.fifo.first + s.fifo.waiting) % 64) as usize;
    queue[last] = entry(s.port, blue);
    let fifo = Fifo {
        waiting: s.fifo.waiting + 1,
        ..s.fifo
    };
    State { fifo, ..s }
}
