// The component expander: 4 to 8 bits to ten. Its definitions, and the 8-bit rule on a byte.
//
// Source document 001, Tables 23 to 25, and document 02, P4, decide; specs/Expand.antt says it. The expander, with the
// constant table of 8 bits, is in expand_widths, the call of the board's C program in expand_c, and each width's rule
// in theorem_scope_expand. Not modelled: the linearization register that chooses between 6 and 8 bits on the chip.
#![tactic(auto)]

ghost use Rattle.std.specs.Prelude.{◌≡◌};
ghost use Rattle.expand.specs.Expand.{ten};

// A byte as ten bits, by the 8-bit rule: chip C's port 6, at each byte of which a table would be built anew.
#[tactic(auto, using(crate::proofs::Rules::ten_eight))]
pub fn eight(v: u8) -> u16
    ensures { result ≡ ten 8 v }
{
    let w = u16::from(v);
    4 * w + w / 64
}
