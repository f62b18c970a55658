// Whether a table has a byte over 15, which no sheet can say.
//
// Document 01, "The sheet and its calls", decides; the test is `over_fifteen_in` of sheet's specs/Sheet.antt. Not
// modelled: as in sheet_writer.
#![tactic(auto)]

ghost use Rattle.std.specs.Prelude.{◌≡◌};
ghost use Rattle.sheet.specs.Sheet.{over_fifteen_in};

// Whether a table has a byte over 15.
#[tactic(auto, using(crate::proofs::Over::over_any))]
pub fn over_fifteen(table: &[u8]) -> bool
    ensures { result ≡ over_fifteen_in table.now }
{
    table.iter().any(|x| 15 < *x)
}
