// Chip C, the palette port of the RGB640: a look, the number that stands at a place. It moves nothing, fetches nothing,
// and answers a number of the table as lent.
//
// Request P5 decides; the places and the rule are `look_places` and `called (looks ..)` of rgb640's specs/Rgb640.antt.
// Not modelled: as there.
#![tactic(auto)]

ghost use Rattle.std.specs.Prelude.{◌≡◌};
ghost use Rattle.vocabulary.specs.Look.{looking, telling_look};
ghost use Rattle.rgb640.specs.Rgb640.{chip, looks, called};

use rgb640::State;
use rgb640_range::standing_of;
use vocabulary::{Looked, Refusal};

// The number at a place: 0 to 7 are of the state, the table's numbers stand from 0x10000 on.
#[tactic(auto, using(crate::proofs::Places::told))]
fn look_at(s: State, place: u32, table: &[u16]) -> Result<u16, Refusal>
    ensures { looking (telling_look result) (chip s table.now) ≡ called (looks place) (chip s table.now) }
{
    standing_of(s, table.len())?;
    let table: &[u16; 3072] = table.as_array().unwrap();
    match place {
        0 => Ok(s.index),
        1 => Ok(u16::from(s.place)),
        2 => Ok(s.red),
        3 => Ok(s.green),
        4 => Ok(s.fetched.red),
        5 => Ok(s.fetched.green),
        6 => Ok(s.fetched.blue),
        7 => Ok(u16::from(s.update)),
        0x10000..=0x10BFF => Ok(table[(place - 0x10000) as usize]),
        _ => Err(Refusal::NoAccess),
    }
}

// A look at a place.
pub fn zk_c_look(s: State, place: u32, table: &[u16]) -> Looked
    ensures { looking result (chip s table.now) ≡ called (looks place) (chip s table.now) }
{
    look::told(look_at(s, place, table))
}
