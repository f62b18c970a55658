// The MS622424's blanking period.
//
// Source document 004, "Write FIFO", document 01, "Chip B", and document 02, P7, decide; ms622424's
// specs/Ms622424.antt says it (`blanked`, `blank_refusals`). Not modelled: what the output shows during a transfer.
#![tactic(auto)]

ghost use Rattle.ms622424.specs.Ms622424.{blanks, called};
ghost use Rattle.ms622424_places.specs.Places.{handed, outcome, Does};

use ms622424_places::{Answer, State};
use ms622424_port::{accepted, refused_for};
use vocabulary::Refusal;

// A blanking period of so many slots: each moves the oldest waiting entry, if one waits, into the map, and
// the first position steps past it.
pub fn zk_b_blank(s: State, slots: u32, queue: &[u64], map: &mut [u8]) -> Answer
    ensures { Does (handed s queue.now map.old)
        (outcome result queue.now map.new) (called (blanks slots)) }
{
    let Some(places) = queue.as_array::<64>() else {
        return refused_for(Refusal::LentLength, s);
    };
    let Some(bytes) = map.as_mut_array::<24576>() else {
        return refused_for(Refusal::LentLength, s);
    };
    if !ms622424_range::in_range(s, places) {
        return refused_for(Refusal::OutOfRange, s);
    }
    if 65535 < slots {
        return refused_for(Refusal::OutOfRange, s);
    }
    let m = ms622424_transfer::transfer(s, slots, places, bytes);
    accepted(0, m.count, m.state)
}
