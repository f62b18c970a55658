// Chip C, the palette port of the RGB640: the ranges that write and read try first.
//
// Source document 001, sections 9.3 and 9.4.1, and document 01, "Chip C", decide; the rules are in rgb640's
// specs/Rgb640.antt. Not modelled: as there.
#![tactic(auto)]

ghost use Rattle.std.specs.Prelude.{◌≡◌};
ghost use Rattle.vocabulary.specs.Range.{meets};
ghost use Rattle.vocabulary.specs.Refusal.{refusal_in};
ghost use Rattle.rgb640.specs.Rgb640.{state_ranges, standing_of};

use rgb640::State;
use vocabulary::Refusal;

// The order, the latches and the fetched entry lie in their ranges.
#[tactic(auto, unfolding(vocabulary::specs::Range::meets))]
fn in_range(s: State) -> bool
    ensures { result ≡ meets (state_ranges s) }
{
    let f = s.fetched;
    s.place < 3 && s.red < 1024 && s.green < 1024 && f.red < 1024 && f.green < 1024 && f.blue < 1024
}

// What write and read try first: the length of the lent table, then the state's ranges.
pub fn standing_of(s: State, size: usize) -> Result<(), Refusal>
    ensures { refusal_in result ≡ standing_of size s }
{
    if size != 3072 {
        return Err(Refusal::LentLength);
    }
    if !in_range(s) {
        return Err(Refusal::OutOfRange);
    }
    Ok(())
}
