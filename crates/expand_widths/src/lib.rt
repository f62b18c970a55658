// The component expander: 4 to 8 bits to ten, 8 bits by a constant table.
//
// Source document 001, Tables 23 to 25, and document 02, P2 (no other table) and P4 (every width), decide; the answers
// are `expansion` of expand's specs/Expand.antt. Not modelled: as in expand.
#![tactic(auto)]

mod table;

ghost use Rattle.std.specs.Prelude.{◌≡◌};
ghost use Rattle.expand.specs.Expand.{ten, expansion, meaning};

use table::EIGHT;
use vocabulary::Refusal;

// The table's entries.
// Stays: width 8 has a constant table (P2, P4); chip C, which expands at each write, the formula (`expand::eight`).
fn eight_listed(v: u8) -> u16
    ensures { result ≡ ten 8 v }
{
    EIGHT[v as usize]
}

// A component of so many bits as ten: the first ten of it three times in a row, which are 12 bits or more. What the
// width does not hold goes over ten bits there.
#[tactic(auto, using(crate::proofs::Thrice::rows))]
pub fn expand(width: u32, v: u32) -> Result<u16, Refusal>
    ensures { meaning result ≡ expansion width v }
{
    if width < 4 {
        return Err(Refusal::OutOfRange);
    }
    if 8 <= width {
        if 9 <= width {
            return Err(Refusal::OutOfRange);
        }
        if 256 <= v {
            return Err(Refusal::OutOfRange);
        }
        return Ok(eight_listed(v as u8));
    }
    let once = v as u64;
    let twice = (once << width) + once;
    let thrice = (twice << width) + once;
    let first = thrice >> (3 * width - 10);
    if first < 1024 {
        return Ok(first as u16);
    }
    Err(Refusal::OutOfRange)
}
