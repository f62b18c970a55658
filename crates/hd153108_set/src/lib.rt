// The HD153108's registers that a write sets (chip A): the address, the masks, the overlay control, the blink timing.
//
// Source document 003, Address Register and Internal Registers, with document 01's rulings, decides; the rule is
// `written` of hd153108's specs/Hd153108.antt. What is promised, specs/Serves.antt, is of a chip in range, whatever
// tables it is lent. Not modelled: as there.
#![tactic(auto)]

ghost use Rattle.hd153108.specs.Hd153108.{writes};
ghost use Rattle.hd153108_set.specs.Serves.{Serves};

use hd153108::{Answer, Clock, State};
use hd153108_port::accepted;

// The address; the pointer goes to red, and the latches are kept.
pub fn set_address(s: State, byte: u8) -> Answer
    ensures { Serves (writes 0 byte) s result }
{
    accepted(
        0,
        State {
            address: byte,
            pointer: 0,
            ..s
        },
    )
}

// The Read Mask Register.
pub fn set_read_mask(s: State, byte: u8) -> Answer
    ensures { Serves (writes 4 byte) s result }
{
    accepted(
        0,
        State {
            readmask: byte,
            ..s
        },
    )
}

// The Blink Mask Register.
pub fn set_blink_mask(s: State, byte: u8) -> Answer
    ensures { Serves (writes 5 byte) s result }
{
    accepted(
        0,
        State {
            blinkmask: byte,
            ..s
        },
    )
}

// Overlay Control, without its reserved bits.
pub fn set_control(s: State, byte: u8) -> Answer
    ensures { Serves (writes 6 byte) s result }
{
    accepted(
        0,
        State {
            control: byte & 79,
            ..s
        },
    )
}

// Blink Timing; the blink clock restarts.
pub fn set_timing(s: State, byte: u8) -> Answer
    ensures { Serves (writes 7 byte) s result }
{
    let restarted = Clock {
        timing: byte,
        position: 0,
    };
    accepted(
        0,
        State {
            clock: restarted,
            ..s
        },
    )
}
