// The MS622424's reads at the MPU port.
//
// Source document 004, "Truth Table" and "Internal Registers", and document 01, "Chip B", decide; ms622424's
// specs/Ms622424.antt says it (`answers`, `read_refusals`). Not modelled: the pixels that a read of the map disturbs.
#![tactic(auto)]

ghost use Rattle.ms622424.specs.Ms622424.{reads, called};
ghost use Rattle.ms622424_places.specs.Places.{handed, outcome, Does};

use ms622424_map_read::read_palette;
use ms622424_places::{Answer, State};
use ms622424_port::{accepted, refused_for};
use ms622424_range::standing_tables;
use ms622424_registers::{end_read_mode, read_buffer, read_ident};
use ms622424_status::status;
use vocabulary::Refusal;

// A read of a select.
pub fn zk_b_read(s: State, select: u8, queue: &[u64], map: &[u8]) -> Answer
    ensures { Does (handed s queue.now map.now)
        (outcome result queue.now map.now) (called (reads select)) }
{
    if let Err(r) = standing_tables(s, queue, map.len()) {
        return refused_for(r, s);
    }
    match select {
        0 => accepted((s.port.address % 256) as u8, 0, s),
        1 => accepted((s.port.address / 256) as u8, 0, s),
        2 => read_palette(s, map.as_array().unwrap()),
        3 => accepted(s.control.command, 0, s),
        4 => accepted(status(s), 0, s),
        5 => read_buffer(s),
        6 => read_ident(s),
        7 => end_read_mode(s),
        _ => refused_for(Refusal::NoAccess, s),
    }
}
