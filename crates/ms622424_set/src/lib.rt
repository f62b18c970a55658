// The MS622424's registers that a write sets: the address and the command.
//
// Source document 004, "Internal Registers", and document 01, "Chip B", decide; ms622424's specs/Ms622424.antt says it
// (`written`). What is promised is of a chip in range, whatever tables keep it. Not modelled: as there.
#![tactic(auto)]

ghost use Rattle.ms622424.specs.Ms622424.{writes, called};
ghost use Rattle.ms622424_places.specs.Places.{DoesWhateverLent};

use ms622424::{Control, Port};
use ms622424_places::{Answer, State};
use ms622424_port::accepted;

// The address' low byte; the counter goes to red.
pub fn set_address_low(s: State, byte: u8) -> Answer
    ensures { DoesWhateverLent s result (called (writes 0 byte)) }
{
    let port = Port {
        address: s.port.address / 256 * 256 + u16::from(byte),
        counter: 0,
        ..s.port
    };
    accepted(0, 0, State { port, ..s })
}

// The address' high five bits; the counter goes to red.
pub fn set_address_high(s: State, byte: u8) -> Answer
    ensures { DoesWhateverLent s result (called (writes 1 byte)) }
{
    let port = Port {
        address: u16::from(byte % 32) * 256 + s.port.address % 256,
        counter: 0,
        ..s.port
    };
    accepted(0, 0, State { port, ..s })
}

// The Command Register.
pub fn set_command(s: State, byte: u8) -> Answer
    ensures { DoesWhateverLent s result (called (writes 3 byte)) }
{
    let control = Control {
        command: byte % 32,
        ..s.control
    };
    accepted(0, 0, State { control, ..s })
}
