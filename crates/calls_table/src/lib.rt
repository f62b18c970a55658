// A table's calls into a buffer, entry by entry, from the table's lines.
//
// Document 01, "The sheet and its calls", decides; the calls are `table_calls` of calls' specs/Calls.antt. Not
// modelled: as in calls.
#![tactic(auto)]

ghost use Rattle.std.specs.Prelude.{false, ◌≤◌, length};
ghost use Rattle.sheet.specs.Sheet.{Wrote};
ghost use Rattle.calls.specs.Calls.{table_calls, call_bytes};

// A table's calls at a buffer's start: how many bytes they are.
pub fn table_calls(lines: &[Option<u16>], select: u8, out: &mut [u8]) -> usize
    requires { (length lines.now ≤ 256)
        × (length (call_bytes (table_calls select 0 false lines.now)) ≤ length out.old) }
    ensures { Wrote out.old 0 (call_bytes (table_calls select 0 false lines.now)) result out.new }
{
    let mut at = 0;
    let mut follows = false;
    for (entry, line) in lines.iter().enumerate() {
        at += calls_entry::put_entry(&mut out[at..], select, entry as u8, follows, *line);
        follows = line.is_some();
    }
    at
}
