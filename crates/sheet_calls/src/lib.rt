// The step from a sheet to its call list: from any text into any buffer, and its answer as one number.
//
// Document 01, "The sheet and its calls", decides; the step is `sheet_to_calls` of calls' specs/Calls.antt. The caller
// owns the buffer; bytes past the list keep their values, and a refusal writes none. sheet_calls_c exports the one
// number to C. Not modelled: as there.
#![tactic(auto)]

ghost use Rattle.std.specs.Prelude.{◌≡◌, ◌*◌, ◌≤◌, length, IfOk};
ghost use Rattle.sheet.specs.Sheet.{outcome, heard, telling};
ghost use Rattle.calls.specs.Calls.{sheet_to_calls};

use sheet::{Answer, Refused};
use vocabulary::Refusal;

// A sheet's calls, from any text into any buffer: how many, two bytes of the buffer each.
pub fn sheet_calls(text: &[u8], out: &mut [u8]) -> Answer
    ensures answer { outcome result out.new ≡ sheet_to_calls text.now out.old }
    ensures inside { IfOk result (λ count. 2 * count ≤ length out.new) }
{
    let lines = sheet_reader::read(text).map_err(|line| Refused {
        refusal: Refusal::Malformed,
        line,
    })?;
    let count = calls_count::count_of(&lines);
    if out.len() < 2 * count {
        return Err(Refusal::ShortBuffer.into());
    }
    calls_write::write_calls(&lines, out);
    Ok(count as u16)
}

// The same in one number: refusal, count of calls and line.
pub fn zk_sheet_to_calls(sheet: &[u8], out: &mut [u8]) -> u64
    ensures { heard result out.new ≡ telling (sheet_to_calls sheet.now out.old) }
{
    sheet::told_answer(sheet_calls(sheet, out))
}
