// The MS622424's Status Register.
//
// Source document 004, "Internal Registers", and document 01, "Chip B", decide; ms622424's specs/Ms622424.antt says it
// (`status_of`). Not modelled: as there.
#![tactic(auto)]

ghost use Rattle.std.specs.Prelude.{◌≡◌, ◌<◌};
ghost use Rattle.ms622424.specs.Ms622424.{status_of};

use ms622424_places::State;

// The Status Register: the counter, and three flags that are active low.
pub fn status(s: State) -> u8
    requires { s.port.counter < 3 }
    ensures { result ≡ status_of s.port.counter s.fifo.waiting s.control }
{
    let mark = if s.control.command / 16 % 2 == 0 {
        32
    } else {
        56
    };
    let empty = if s.fifo.waiting == 0 { 0 } else { 4 };
    let filled = if mark <= s.fifo.waiting { 0 } else { 8 };
    let full = if s.fifo.waiting == 64 { 0 } else { 16 };
    s.port.counter + empty + filled + full
}
