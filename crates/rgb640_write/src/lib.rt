// Chip C, the palette port of the RGB640: a byte written to a port.
//
// Source document 001, sections 9.1, 9.4.1 and 10.15, and document 01, "Chip C", decide; the rule is
// `called (writes ..)` of rgb640's specs/Rgb640.antt. Not modelled: as there.
#![tactic(auto)]

ghost use Rattle.std.specs.Prelude.{◌≡◌};
ghost use Rattle.rgb640.specs.Rgb640.{chip, InRange, outcome, writes, called};

use rgb640::{Answer, State};
use rgb640_fetch::prefetch;
use rgb640_palette::palette_write;
use rgb640_port::{accepted, refused_for};
use rgb640_range::standing_of;
use vocabulary::Refusal;

// A write of port 6, where the table and the state stand.
#[tactic(auto, using(crate::proofs::Arms::data_ends))]
fn data_write(s: State, byte: u8, table: &mut [u16; 3072]) -> Answer
    requires { InRange (chip s table.old) }
    ensures { outcome result table.new ≡ called (writes 6 byte) (chip s table.old) }
{
    match s.index {
        0x000E => accepted(0, State { update: byte, ..s }),
        0x4000..=0x43FF => accepted(0, palette_write(s, byte, table)),
        _ => refused_for(Refusal::NoIndex, s),
    }
}

// A byte written to a port.
#[tactic(auto, using(crate::proofs::Arms::ends))]
pub fn zk_c_write(s: State, port: u8, byte: u8, table: &mut [u16]) -> Answer
    ensures { outcome result table.new ≡ called (writes port byte) (chip s table.old) }
{
    if let Err(r) = standing_of(s, table.len()) {
        return refused_for(r, s);
    }
    let table = table.as_mut_array().unwrap();
    // Stays: a port is its number of section 9.1, matched here and at a read; an enum would be that table once more.
    match port {
        4 => {
            let index = s.index / 256 * 256 + (byte as u16);
            accepted(0, State { index, ..s })
        }
        5 => {
            let index = (byte as u16) * 256 + s.index % 256;
            let set = State {
                index,
                place: 0,
                ..s
            };
            accepted(0, prefetch(set, table))
        }
        6 => data_write(s, byte, table),
        _ => refused_for(Refusal::NoAccess, s),
    }
}
