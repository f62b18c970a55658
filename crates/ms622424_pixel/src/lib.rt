// The MS622424's output: the colour of a pixel.
//
// Source document 004, "Pin Descriptions", and document 01, "Chip B", decide; ms622424's specs/Ms622424.antt says it
// (`shown`, `pixel_refusals`). The call changes nothing. Not modelled: the pipeline's delay, the held colour while the
// processor has the map, the pins' timing.
#![tactic(auto)]

ghost use Rattle.std.specs.Prelude.{◌≡◌};
ghost use Rattle.vocabulary.specs.Pixel.{showing, telling_pixel};
ghost use Rattle.ms622424.specs.Ms622424.{pixels, called};
ghost use Rattle.ms622424_places.specs.Places.{handed, view};

use ms622424_entry::entry;
use ms622424_places::State;
use ms622424_range::standing_tables;
use vocabulary::{Colour, Refusal, Shown};

// The colour of a pixel, or why there is none.
#[tactic(auto, using(crate::proofs::Stopped::stopped))]
fn colour(s: State, mode: u8, word: u32, queue: &[u64], map: &[u8]) -> Result<Colour, Refusal>
    ensures { showing (telling_pixel result) (view (handed s queue.now map.now))
        ≡ called (pixels mode word) (view (handed s queue.now map.now)) }
{
    standing_tables(s, queue, map.len())?;
    if 3 < mode || 16777215 < word {
        return Err(Refusal::OutOfRange);
    }
    let red = 3 * entry(mode, word, word % 256);
    let green = 3 * entry(mode, word, word / 256 % 256) + 1;
    let blue = 3 * entry(mode, word, word / 65536) + 2;
    Ok(Colour {
        red: map[red],
        green: map[green],
        blue: map[blue],
    })
}

// What a pixel answers.
pub fn zk_b_pixel(s: State, mode: u8, word: u32, queue: &[u64], map: &[u8]) -> Shown
    ensures { showing result (view (handed s queue.now map.now))
        ≡ called (pixels mode word) (view (handed s queue.now map.now)) }
{
    Shown::told(colour(s, mode, word, queue, map))
}
