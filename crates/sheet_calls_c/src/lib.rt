// The step from a sheet to its call list for C: refusal, count of calls and line in one number. It is the call of
// sheet_calls, and promises what that one does.
//
// Document 01, "The sheet and its calls", decides; the step is `sheet_to_calls` of calls' specs/Calls.antt, as
// `telling` of sheet's specs/Sheet.antt tells it. Not modelled: as there.
#![tactic(auto)]

ghost use Rattle.std.specs.Prelude.{◌≡◌};
ghost use Rattle.sheet.specs.Sheet.{heard, telling};
ghost use Rattle.calls.specs.Calls.{sheet_to_calls};

// A sheet's calls, from any text into any buffer.
#[unsafe(no_mangle)]
pub extern "C" fn zk_sheet_to_calls(sheet: &[u8], out: &mut [u8]) -> u64
    ensures { heard result out.new ≡ telling (sheet_to_calls sheet.now out.old) }
{
    sheet_calls::zk_sheet_to_calls(sheet, out)
}
