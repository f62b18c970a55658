// The two tests of a sheet's line: whether a text starts with a word, and whether a key takes a value.
//
// Document 01, "The sheet and its calls", decides; they are `starts` and `takes` of sheet's specs/Sheet.antt. Not
// modelled: as in sheet.
#![tactic(auto)]

ghost use Rattle.std.specs.Prelude.{◌≡◌};
ghost use Rattle.sheet.specs.Sheet.{key_at, takes as takes_of, starts};

// Whether a text starts with a word.
#[tactic(auto, using(crate::proofs::Starts::starts_same))]
pub fn begins(text: &[u8], word: &[u8]) -> bool
    ensures { result ≡ starts word.now text.now }
{
    text.starts_with(word)
}

// Whether a key takes a value: the overlay control has bits 7, 5 and 4 zero.
#[tactic(auto, using(crate::proofs::Choosy::takes_overlay, crate::proofs::Choosy::takes_other))]
pub fn takes(k: u16, v: u16) -> bool
    ensures { result ≡ takes_of (key_at k) v }
{
    k != 3 || v & 176 == 0
}
