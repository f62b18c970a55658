// The range of the MS622424's lent queue: what refusal 9 asks of its first position, its number and its entries.
//
// Document 01, "Chip B", and document 02, P7, decide; ms622424's specs/Ms622424.antt says it (`queue_ranges`), and
// ms622424_places how the places keep it. Not modelled: as in ms622424.
#![tactic(auto)]

ghost use Rattle.std.specs.Prelude.{◌≡◌, [], ◌≤◌, ◌<◌};
ghost use Rattle.vocabulary.specs.Range.{meets};
ghost use Rattle.vocabulary.specs.Every.{every};
ghost use Rattle.ms622424.specs.Ms622424.{is_in_map, queue_ranges};
ghost use Rattle.ms622424_places.specs.Places.{entries_in, ringed, handed, view};

use ms622424_gather::gathered;
use ms622424_places::{Queue, State};

// The places whose address is one of the map's 8,192 are below this.
const PLACE_END: u64 = 1 << 37;

// Every waiting entry has an address of the map; no other place is read. A full queue is gathered by two fixed loops
// that the compiler unrolls; another in one part, or round the end in two.
fn places_in_range(queue: &Queue, first: usize, waiting: usize) -> bool
    requires { (first < 64) × (waiting ≤ 64) }
    ensures { result ≡ every is_in_map (entries_in (ringed first waiting queue.now)) }
{
    if waiting == 64 {
        let front = gathered(&queue[..32]);
        let back = gathered(&queue[32..]);
        return (front | back) < PLACE_END;
    }
    let end = first + waiting;
    if end <= 64 {
        return gathered(&queue[first..end]) < PLACE_END;
    }
    let older = gathered(&queue[first..]);
    let younger = gathered(&queue[..end - 64]);
    (older | younger) < PLACE_END
}

// The lent queue is as it should be, and so are its entries, whatever map is lent.
pub fn queue_in_range(s: State, queue: &Queue) -> bool
    ensures { result ≡ meets (queue_ranges (view (handed s queue.now []))) }
{
    if 64 <= s.fifo.first || 64 < s.fifo.waiting {
        return false;
    }
    places_in_range(queue, s.fifo.first as usize, s.fifo.waiting as usize)
}
