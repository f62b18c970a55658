// One entry's calls into a buffer: its address write, unless it follows the entry before it, and its colour's three.
//
// Document 01, "The sheet and its calls", decides; the calls are `entry_calls` of calls' specs/Calls.antt. A call is
// two bytes, select and byte; bytes past them keep their values. The colour's are in calls_colour. Not modelled: as in
// calls.
#![tactic(auto)]

ghost use Rattle.std.specs.Prelude.{◌≤◌, length};
ghost use Rattle.sheet.specs.Sheet.{Wrote};
ghost use Rattle.calls.specs.Calls.{address_calls, entry_calls, call_bytes};

// An address write at a buffer's start, unless the entry follows the one before it: how many bytes it is.
fn put_address(out: &mut [u8], follows: bool, entry: u8) -> usize
    requires { length (call_bytes (address_calls follows entry)) ≤ length out.old }
    ensures { Wrote out.old 0 (call_bytes (address_calls follows entry)) result out.new }
{
    if follows {
        return 0;
    }
    out[..2].copy_from_slice(&[0, entry]);
    2
}

// An entry's calls at a buffer's start, none where it is missing: how many bytes they are.
pub fn put_entry(out: &mut [u8], select: u8, entry: u8, follows: bool, line: Option<u16>) -> usize
    requires { length (call_bytes (entry_calls select entry follows line)) ≤ length out.old }
    ensures { Wrote out.old 0 (call_bytes (entry_calls select entry follows line)) result out.new }
{
    let Some(v) = line else {
        return 0;
    };
    let n = put_address(out, follows, entry);
    n + calls_colour::put_colour(&mut out[n..], select, v)
}
