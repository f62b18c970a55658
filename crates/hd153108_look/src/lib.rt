// The HD153108 (chip A): a look, the number that stands at a place. It moves nothing.
//
// Request P5 decides; the places and the rule are `look_places` and `called (looks ..)` of hd153108's
// specs/Hd153108.antt. Not modelled: as there.
#![tactic(auto)]

ghost use Rattle.std.specs.Prelude.{◌≤◌, ◌≡◌, length};
ghost use Rattle.vocabulary.specs.Look.{looking, telling_look};
ghost use Rattle.hd153108.specs.Hd153108.{chip, InRange, looks, called};
ghost use Rattle.hd153108_look.specs.Place.{telling_place};

use hd153108::State;
use hd153108_range::standing;
use look::told;
use vocabulary::{Looked, Refusal};

// Past the state's places: the overlays' bytes from 0x100 on, the colours' from 0x1000 on.
#[tactic(auto, using(crate::proofs::Places::places))]
fn table_number(place: u32, colours: &[u8], overlays: &[u8]) -> Option<u8>
    requires past_state { 9 ≤ place }
    requires whole_tables { (length colours.now ≡ 768) × (length overlays.now ≡ 12) }
    ensures { (s : State) → InRange (chip s colours.now overlays.now)
        → looking (telling_place result) (chip s colours.now overlays.now)
        ≡ called (looks place) (chip s colours.now overlays.now) }
{
    match place {
        0x100..=0x10B => Some(overlays[(place - 0x100) as usize]),
        0x1000..=0x12FF => Some(colours[(place - 0x1000) as usize]),
        _ => None,
    }
}

// The number at a place of a chip in range: places 0 to 8 are of the state.
fn number(s: State, place: u32, colours: &[u8], overlays: &[u8]) -> Option<u8>
    requires { InRange (chip s colours.now overlays.now) }
    ensures { looking (telling_place result) (chip s colours.now overlays.now)
        ≡ called (looks place) (chip s colours.now overlays.now) }
{
    match place {
        0 => Some(s.address),
        1 => Some(s.pointer),
        2 => Some(s.red),
        3 => Some(s.green),
        4 => Some(s.readmask),
        5 => Some(s.blinkmask),
        6 => Some(s.control),
        7 => Some(s.clock.timing),
        8 => Some(s.clock.position),
        _ => table_number(place, colours, overlays),
    }
}

// What a look finds: a number, or why there is none.
fn found(s: State, place: u32, colours: &[u8], overlays: &[u8]) -> Result<u16, Refusal>
    ensures { looking (telling_look result) (chip s colours.now overlays.now)
        ≡ called (looks place) (chip s colours.now overlays.now) }
{
    standing(s, colours.len(), overlays.len())?;
    let value = number(s, place, colours, overlays).ok_or(Refusal::NoAccess)?;
    Ok(u16::from(value))
}

// A look at a place.
pub fn zk_a_look(s: State, place: u32, colours: &[u8], overlays: &[u8]) -> Looked
    ensures { looking result (chip s colours.now overlays.now)
        ≡ called (looks place) (chip s colours.now overlays.now) }
{
    told(found(s, place, colours, overlays))
}
