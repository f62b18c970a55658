// The bits of lent places, gathered: what tells whether each place is below a power of 2.
//
// Document 01, "Chip B", decides what a place may hold: ms622424_places says how the places keep a queue, and
// ms622424_queue_range which power is asked. Not modelled: anything of the chip but lent places.
#![tactic(auto)]

ghost use Rattle.std.specs.Prelude.{◌≡◌, ℕ, ◌^◌, ltb};
ghost use Rattle.vocabulary.specs.Every.{every};

// The bits of places, gathered. They are below a power of 2 exactly when each place is. There is no branch in the loop:
// it can be vectorized.
pub fn gathered(places: &[u64]) -> u64
    ensures { (k : ℕ) → ltb result (2 ^ k) ≡ every (λ n. ltb n (2 ^ k)) places.now }
{
    let mut bits: u64 = 0;
    for place in places {
        bits |= *place;
    }
    bits
}
