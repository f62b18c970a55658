// The MS622424: the ranges that every call tries first, which refusals 1 and 9 ask of a state and of the lent tables.
// They are the same whatever bytes the map has.
//
// Document 01, "Chip B", decides; ms622424's specs/Ms622424.antt says it. How the queue is kept is not known here:
// ms622424_queue_range tests its places. Not modelled: as there.
#![tactic(auto)]

ghost use Rattle.std.specs.Prelude.{◌≡◌, [], ◌∷◌, length};
ghost use Rattle.vocabulary.specs.Range.{equal, meets, fails};
ghost use Rattle.vocabulary.specs.Refusal.{refusal_in, refusal_of, standing};
ghost use Rattle.ms622424.specs.Ms622424.{short_queue, ranges, outside};
ghost use Rattle.ms622424_places.specs.Places.{handed, view};

use ms622424_places::{Queue, State};
use vocabulary::Refusal;

// The registers, the queue's places and its entries lie in their ranges; red and green are bytes in any state.
pub fn in_range(s: State, queue: &Queue) -> bool
    ensures { result ≡ meets (ranges (view (handed s queue.now []))) }
{
    if 8192 <= s.port.address
        || 3 <= s.port.counter
        || 32 <= s.control.command
        || 2 <= s.control.readmode
        || 8 <= s.ident.revision
        || 16 <= s.ident.board
    {
        return false;
    }
    ms622424_queue_range::queue_in_range(s, queue)
}

// What every call but a reset tries first, of the state and the queue.
pub fn standing_queue(s: State, queue: &[u64]) -> Result<(), Refusal>
    ensures { refusal_in result ≡ refusal_of (standing (short_queue (view (handed s queue.now [])))
        (outside (view (handed s queue.now [])))) }
{
    let Some(places) = queue.as_array::<64>() else {
        return Err(Refusal::LentLength);
    };
    if !in_range(s, places) {
        return Err(Refusal::OutOfRange);
    }
    Ok(())
}

// The same of a call that is lent the map too, of `size` bytes.
pub fn standing_tables(s: State, queue: &[u64], size: usize) -> Result<(), Refusal>
    ensures { refusal_in result
        ≡ refusal_of (standing (fails (equal (length queue.now) 64 ∷ equal size 24576 ∷ []))
        (outside (view (handed s queue.now [])))) }
{
    if size != 24576 {
        return Err(Refusal::LentLength);
    }
    standing_queue(s, queue)
}
