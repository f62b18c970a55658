// The writer of a sheet for C: refusal and count of bytes in one number.
//
// Document 01, "The sheet and its calls", decides; the answer is `write` of sheet's specs/Sheet.antt, as `telling`
// there tells it. Not modelled: as in sheet_writer.
#![tactic(auto)]

ghost use Rattle.std.specs.Prelude.{◌≡◌};
ghost use Rattle.hd153108.specs.Hd153108.{chip};
ghost use Rattle.sheet.specs.Sheet.{write, heard, telling};

use hd153108::State;
use sheet_writer::write_sheet;

// A sheet of any state and tables into any buffer.
#[unsafe(no_mangle)]
pub extern "C" fn zk_sheet_write<'a>(
    state: State,
    colours: &'a [u8],
    overlays: &'a [u8],
    out: &mut [u8],
) -> u64
    ensures { heard result out.new
        ≡ telling (write (chip state colours.now overlays.now) out.old) }
{
    sheet::told_answer(write_sheet(state, colours, overlays, out))
}
