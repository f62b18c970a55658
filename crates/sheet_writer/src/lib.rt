// The writer of a sheet: chip A's state and tables as text.
//
// Document 01, "The sheet and its calls", decides; `write` in specs/Sheet.antt of crate sheet says what it answers and
// leaves, and the call equals it. It always lists all: 265 lines, 2,134 bytes. The caller owns state, tables and
// buffer; bytes past the sheet keep their values, and a refusal writes none. The call for C is in sheet_writer_c. Not
// modelled: a sheet with missing lines.
#![tactic(auto)]

ghost use Rattle.std.specs.Prelude.{◌≡◌};
ghost use Rattle.hd153108.specs.Hd153108.{chip};
ghost use Rattle.sheet.specs.Sheet.{write, outcome};

use hd153108::State;
use sheet::Answer;
use vocabulary::Refusal;

// A sheet of any state and tables into any buffer.
#[tactic(auto, using(sheet_written::proofs::Ends::ends))]
pub fn write_sheet(s: State, colours: &[u8], overlays: &[u8], out: &mut [u8]) -> Answer
    ensures { outcome result out.new
        ≡ write (chip s colours.now overlays.now) out.old }
{
    hd153108_range::standing(s, colours.len(), overlays.len())?;
    if sheet_over::over_fifteen(colours) || sheet_over::over_fifteen(overlays) {
        return Err(Refusal::OverFifteen.into());
    }
    if out.len() < 2134 {
        return Err(Refusal::ShortBuffer.into());
    }
    sheet_lines::write_lines(s, colours, overlays, out);
    Ok(2134)
}
