// The HD153108's data write (chip A): red and green latched, and a colour stored in either table with its blue.
//
// Source document 003, Access to CLT/OLT, with document 01's rulings, decides; the rules are `stepped`, `latched` and
// `stored` of hd153108's specs/Hd153108.antt. Not modelled: as there.
#![tactic(auto)]

ghost use Rattle.std.specs.Prelude.{◌≡◌, ◌+◌, ◌*◌, ◌≤◌, length};
ghost use Rattle.vocabulary.specs.Component.{component_at, put};
ghost use Rattle.hd153108.specs.Hd153108.{stepped, latched, stored};

use hd153108::State;
use vocabulary::Colour;

// A colour into a table.
// Stays: copy_from_slice of an array of the three bytes is no plainer than the three by their names.
#[tactic(auto, unfolding(vocabulary::specs::Component::put))]
fn put_colour(t: &mut [u8], e: usize, c: Colour)
    requires { 3 * e + 3 ≤ length t.old }
    ensures { t.new ≡ put e c.red c.green c.blue t.old }
{
    let at = 3 * e;
    t[at] = c.red;
    t[at + 1] = c.green;
    t[at + 2] = c.blue;
}

// A data write to either table: e is the entry, after the address that follows it.
// Stays: the tables differ in length, so a type that holds an entry to its table would be made anew for each access.
pub fn data_write(s: State, byte: u8, t: &mut [u8], e: usize, after: u8) -> State
    requires { 3 * e + 3 ≤ length t.old }
    ensures { (result ≡ stepped (component_at s.pointer) after (latched (component_at s.pointer) byte s))
        × (t.new ≡ stored (component_at s.pointer) e byte s t.old) }
{
    let low = byte % 16;
    match s.pointer {
        0 => State {
            pointer: 1,
            red: low,
            ..s
        },
        1 => State {
            pointer: 2,
            green: low,
            ..s
        },
        _ => {
            let colour = Colour {
                red: s.red,
                green: s.green,
                blue: low,
            };
            put_colour(t, e, colour);
            State {
                address: after,
                pointer: 0,
                ..s
            }
        }
    }
}
