// The MS622424's write at the MPU port.
//
// Source document 004, "MPU Interface" and "Write FIFO", and document 01, "Chip B", decide; ms622424's
// specs/Ms622424.antt says it (`written`, `write_refusals`). Not modelled: what the output shows during a transfer.
#![tactic(auto)]

ghost use Rattle.ms622424.specs.Ms622424.{writes, called};
ghost use Rattle.ms622424_places.specs.Places.{handed, outcome, Does};

use ms622424::Control;
use ms622424_places::{Answer, State};
use ms622424_port::{accepted, refused_for};
use vocabulary::Refusal;

// A write of a byte to a select.
pub fn zk_b_write(s: State, select: u8, byte: u8, queue: &mut [u64], map: &mut [u8]) -> Answer
    ensures { Does (handed s queue.old map.old)
        (outcome result queue.new map.new) (called (writes select byte)) }
{
    let Some(places) = queue.as_mut_array::<64>() else {
        return refused_for(Refusal::LentLength, s);
    };
    let Some(bytes) = map.as_mut_array::<24576>() else {
        return refused_for(Refusal::LentLength, s);
    };
    if !ms622424_range::in_range(s, places) {
        return refused_for(Refusal::OutOfRange, s);
    }
    // Stays: a select is its number of 004's truth table, matched here and at a read; an enum would be that table again.
    match select {
        0 => ms622424_set::set_address_low(s, byte),
        1 => ms622424_set::set_address_high(s, byte),
        2 => ms622424_palette::write_palette(s, byte, places, bytes),
        3 => ms622424_set::set_command(s, byte),
        7 => {
            let control = Control {
                readmode: 1,
                ..s.control
            };
            accepted(0, 0, State { control, ..s })
        }
        _ => refused_for(Refusal::NoAccess, s),
    }
}
