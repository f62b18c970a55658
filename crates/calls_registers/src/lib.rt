// The registers' calls of a good sheet, into a buffer.
//
// Document 01, "The sheet and its calls", decides; the calls are `register_calls` of calls' specs/Calls.antt. Bytes
// past them keep their values. Not modelled: as in calls.
#![tactic(auto)]

ghost use Rattle.std.specs.Prelude.{◌≤◌, length};
ghost use Rattle.sheet.specs.Sheet.{registers_of, Wrote};
ghost use Rattle.calls.specs.Calls.{register_calls, call_bytes};
ghost use Rattle.calls.specs.Kept.{Kept};

// Stays: a struct round the slice that carries `Kept` would be made by the one caller, to be taken apart here.
// The registers' calls: of a good sheet's lines, the chip's own, and then the four registers'.
pub fn register_calls(lines: &[Option<u16>], out: &mut [u8]) -> usize
    requires { Kept lines.now × (8 ≤ length out.old) }
    ensures { Wrote out.old 0 (call_bytes (register_calls 4 (registers_of lines.now))) result out.new }
{
    let [_, Some(read), Some(blink), Some(control), Some(timing), ..] = lines else {
        unreachable!()
    };
    let [read, blink, control, timing] = [*read as u8, *blink as u8, *control as u8, *timing as u8];
    out[..8].copy_from_slice(&[4, read, 5, blink, 6, control, 7, timing]);
    8
}
