// The MS622424 (chip B): a look, the number that stands at a place. It moves nothing, and answers from the map as
// stored, whatever waits, in read mode or not.
//
// Requests P5 and P7 decide; the places and the rule are `look_places` and `called (looks ..)` of ms622424's
// specs/Ms622424.antt. Not modelled: as there.
#![tactic(auto)]

ghost use Rattle.std.specs.Prelude.{◌≡◌};
ghost use Rattle.vocabulary.specs.Look.{looking, telling_look};
ghost use Rattle.ms622424.specs.Ms622424.{looks, called};
ghost use Rattle.ms622424_places.specs.Places.{handed, view};

use ms622424_places::State;
use ms622424_range::standing_tables;
use vocabulary::{Looked, Refusal};

// The number at a place: 0 to 8 are of the state, and how many wait; 12 is the first position; the map's bytes stand
// from 0x10000 on.
#[tactic(auto, using(crate::proofs::Places::told))]
fn look_at(s: State, place: u32, queue: &[u64], map: &[u8]) -> Result<u16, Refusal>
    ensures { looking (telling_look result) (view (handed s queue.now map.now))
        ≡ called (looks place) (view (handed s queue.now map.now)) }
{
    standing_tables(s, queue, map.len())?;
    let map: &[u8; 24576] = map.as_array().unwrap();
    match place {
        0 => Ok(s.port.address),
        1 => Ok(u16::from(s.port.counter)),
        2 => Ok(u16::from(s.port.red)),
        3 => Ok(u16::from(s.port.green)),
        4 => Ok(u16::from(s.control.command)),
        5 => Ok(u16::from(s.control.readmode)),
        6 => Ok(u16::from(s.ident.revision)),
        7 => Ok(u16::from(s.ident.board)),
        8 => Ok(u16::from(s.fifo.waiting)),
        12 => Ok(u16::from(s.fifo.first)),
        0x10000..=0x15FFF => Ok(u16::from(map[(place - 0x10000) as usize])),
        _ => Err(Refusal::NoAccess),
    }
}

// A look at a place.
pub fn zk_b_look(s: State, place: u32, queue: &[u64], map: &[u8]) -> Looked
    ensures { looking result (view (handed s queue.now map.now))
        ≡ called (looks place) (view (handed s queue.now map.now)) }
{
    look::told(look_at(s, place, queue, map))
}
