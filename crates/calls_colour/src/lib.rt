// A colour's three writes, into a buffer.
//
// Document 01, "The sheet and its calls", decides; the calls are `colour_calls` of calls' specs/Calls.antt. Bytes past
// them keep their values. Not modelled: as in calls.
#![tactic(auto)]

ghost use Rattle.std.specs.Prelude.{◌≤◌, length};
ghost use Rattle.sheet.specs.Sheet.{Wrote};
ghost use Rattle.calls.specs.Calls.{colour_calls, call_bytes};

// A colour's three writes, at a buffer's start: how many bytes they are.
pub fn put_colour(out: &mut [u8], select: u8, v: u16) -> usize
    requires { 6 ≤ length out.old }
    ensures { Wrote out.old 0 (call_bytes (colour_calls select v)) result out.new }
{
    let red = (v / 16 / 16) as u8;
    let green = (v / 16 % 16) as u8;
    let blue = (v % 16) as u8;
    out[..6].copy_from_slice(&[select, red, select, green, select, blue]);
    6
}
