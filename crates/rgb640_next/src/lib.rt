// Chip C, the palette port of the RGB640: the step of the offset.
//
// Source document 001, section 9.4.1, and document 01, "Chip C", decide; the rule is `next` of rgb640's
// specs/Rgb640.antt. Not modelled: as there.
#![tactic(auto)]

ghost use Rattle.std.specs.Prelude.{◌≡◌};
ghost use Rattle.rgb640.specs.Rgb640.{next};

// The index with its offset stepped.
pub fn next_index(index: u16) -> u16
    ensures { result ≡ next index }
{
    index - index % 1024 + (index % 1024 + 1) % 1024
}
