// A good sheet's calls, written into a lent buffer from the sheet's lines.
//
// Document 01, "The sheet and its calls", decides; the list is `calls_of` of calls' specs/Calls.antt: the registers of
// calls_registers, and the two tables of calls_table behind them. Bytes past the list keep their values. Not
// modelled: as in calls.
#![tactic(auto)]

ghost use Rattle.std.specs.Prelude.{◌≡◌, ◌≤◌, length};
ghost use Rattle.sheet.specs.Sheet.{pasted};
ghost use Rattle.calls.specs.Calls.{tables_calls, calls_of, call_bytes};
ghost use Rattle.calls.specs.Kept.{Kept};

// The overlays' calls, and the calls for the table in the rest of the same buffer, which is lent on.
fn tables_calls(lines: &[Option<u16>], out: &mut [u8])
    requires { Kept lines.now × (length (call_bytes (tables_calls lines.now)) ≤ length out.old) }
    ensures { out.new ≡ pasted out.old 0 (call_bytes (tables_calls lines.now)) }
{
    let n = calls_table::table_calls(&lines[5..9], 3, out);
    calls_table::table_calls(&lines[9..], 1, &mut out[n..]);
}

// Stays: a struct round the slice that carries `Kept` would be made by the one caller, to be taken apart here.
// A good sheet's calls: registers, and the tables' behind them.
pub fn write_calls(lines: &[Option<u16>], out: &mut [u8])
    requires { Kept lines.now × (length (call_bytes (calls_of lines.now)) ≤ length out.old) }
    ensures { out.new ≡ pasted out.old 0 (call_bytes (calls_of lines.now)) }
{
    let n = calls_registers::register_calls(lines, out);
    tables_calls(lines, &mut out[n..]);
}
