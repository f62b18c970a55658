// Chip C, the palette port of the RGB640: a byte for the palette, by its place in the order of transfers.
//
// Source document 001, sections 9.4.1 and 10.15, and document 01, "Chip C", decide; the rule is `palette_taken` of
// rgb640's specs/Rgb640.antt. Not modelled: as there.
#![tactic(auto)]

ghost use Rattle.std.specs.Prelude.{◌≡◌};
ghost use Rattle.vocabulary.specs.Component.{put};
ghost use Rattle.rgb640.specs.Rgb640.{chip, offset, writing, three_bytes, restarted, palette_taken, InRange};

use rgb640::State;
use rgb640_next::next_index;

// A colour stored at the entry of an index.
#[tactic(auto, unfolding(vocabulary::specs::Component::put))]
fn store(index: u16, red: u16, green: u16, blue: u16, table: &mut [u16; 3072])
    ensures { table.new ≡ put (offset index) red green blue table.old }
{
    let at = 3 * ((index % 1024) as usize);
    table[at] = red;
    table[at + 1] = green;
    table[at + 2] = blue;
}

// The state after the last transfer: bit 1 of register 0x000E, where it is 1, stops the index.
#[tactic(auto, using(crate::proofs::Arms::restarts))]
fn restart(s: State) -> State
    ensures { result ≡ restarted writing (λ n. n) s }
{
    let index = if s.update & 2 == 0 {
        next_index(s.index)
    } else {
        s.index
    };
    State {
        index,
        place: 0,
        ..s
    }
}

// A byte to the palette, by its place in the order.
#[tactic(auto, using(crate::proofs::Arms::transfers))]
pub fn palette_write(s: State, byte: u8, table: &mut [u16; 3072]) -> State
    requires { InRange (chip s table.old) }
    ensures { chip result table.new ≡ palette_taken three_bytes byte (chip s table.old) }
{
    let v = expand::eight(byte);
    match s.place {
        0 => State {
            red: v,
            place: 1,
            ..s
        },
        1 => State {
            green: v,
            place: 2,
            ..s
        },
        _ => {
            store(s.index, s.red, s.green, v, table);
            restart(s)
        }
    }
}
