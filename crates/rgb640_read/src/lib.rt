// Chip C, the palette port of the RGB640: a byte read from a port.
//
// Source document 001, sections 9.1, 9.4.1 and 10.15, and document 01, "Chip C", decide; the rule is
// `called (reads ..)` of rgb640's specs/Rgb640.antt. Not modelled: as there.
#![tactic(auto)]

ghost use Rattle.std.specs.Prelude.{◌≡◌};
ghost use Rattle.rgb640.specs.Rgb640.{chip, reading, fetches_entry, three_bytes, restarted, palette_told};
ghost use Rattle.rgb640.specs.Rgb640.{accept_told, outcome, reads, called, InRange};

use rgb640::{Answer, State};
use rgb640_fetch::fetch;
use rgb640_next::next_index;
use rgb640_port::{accepted, refused_for};
use rgb640_range::standing_of;
use vocabulary::Refusal;

// The state after the last transfer: bit 2 of register 0x000E, where it is 1, stops the index.
#[tactic(auto, using(crate::proofs::Arms::restarts))]
fn restart(s: State, table: &[u16; 3072]) -> State
    ensures { result ≡ restarted reading (fetches_entry table.now) s }
{
    if s.update & 4 != 0 {
        return State { place: 0, ..s };
    }
    let stepped = State {
        index: next_index(s.index),
        place: 0,
        ..s
    };
    fetch(stepped, table)
}

// The answer from the fetched entry, by the place in the order.
#[tactic(auto, using(crate::proofs::Arms::transfers))]
fn palette_read(s: State, table: &[u16; 3072]) -> Answer
    requires { InRange (chip s table.now) }
    ensures { result ≡ accept_told (palette_told three_bytes (chip s table.now)) }
{
    let f = s.fetched;
    match s.place {
        0 => accepted((f.red / 4) as u8, State { place: 1, ..s }),
        1 => accepted((f.green / 4) as u8, State { place: 2, ..s }),
        _ => accepted((f.blue / 4) as u8, restart(s, table)),
    }
}

// A read of port 6, where the table and the state stand.
#[tactic(auto, using(crate::proofs::Arms::data_ends))]
fn data_read(s: State, table: &[u16; 3072]) -> Answer
    requires { InRange (chip s table.now) }
    ensures { outcome result table.now ≡ called (reads 6) (chip s table.now) }
{
    match s.index {
        0x000E => accepted(s.update, s),
        0x8000..=0x83FF => palette_read(s, table),
        _ => refused_for(Refusal::NoIndex, s),
    }
}

// A byte read from a port.
#[tactic(auto, using(crate::proofs::Arms::ends))]
pub fn zk_c_read(s: State, port: u8, table: &[u16]) -> Answer
    ensures { outcome result table.now ≡ called (reads port) (chip s table.now) }
{
    if let Err(r) = standing_of(s, table.len()) {
        return refused_for(r, s);
    }
    match port {
        4 => accepted((s.index % 256) as u8, s),
        5 => accepted((s.index / 256) as u8, s),
        6 => data_read(s, table.as_array().unwrap()),
        _ => refused_for(Refusal::NoAccess, s),
    }
}
