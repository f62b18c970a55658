// A log line's call made on chip A, and the line that answers it.
//
// The replay's description decides; specs/Turns.antt says which call of the chip is made and how its outcome is told.
// The tables are lent, the state goes in and comes back by value. Not modelled: as in turns.
#![tactic(auto)]

ghost use Rattle.hd153108.specs.Hd153108.{chip};
ghost use Rattle.turns_a.specs.Turns.{a_turn, a_own, ATook};

use answers::News;
use hd153108::State;
use port_log::{Call, CallA};
use turns::{Taken, bad, look, shown, told};

// A call that chip A alone has.
fn own(s: State, call: CallA, colours: &[u8], overlays: &[u8]) -> Taken<State>
    ensures { ATook result colours.now overlays.now
        (a_own call (chip s colours.now overlays.now)) }
{
    match call {
        CallA::Tick => {
            let r = hd153108_tick::zk_a_step(s.clock);
            told(
                State {
                    clock: r.clock,
                    ..s
                },
                r.refusal,
                News::Done,
            )
        }
        CallA::Pixel(enable, number, byte) => {
            let p = hd153108_pixel_c::zk_a_pixel(s, enable, number, byte, colours, overlays);
            shown(s, p)
        }
    }
}

// A call on chip A.
pub fn a_turn(s: State, call: Call, colours: &mut [u8], overlays: &mut [u8]) -> Taken<State>
    ensures { ATook result colours.new overlays.new
        (a_turn call (chip s colours.old overlays.old)) }
{
    match call {
        Call::Write(select, byte) => {
            let r = hd153108_write::zk_a_write(s, select, byte, colours, overlays);
            told(r.state, r.refusal, News::Done)
        }
        Call::Read(select) => {
            let r = hd153108_read::zk_a_read(s, select, colours, overlays);
            told(r.state, r.refusal, News::Value(r.value))
        }
        Call::Reset => {
            let r = hd153108_reset::zk_a_reset(s);
            told(r.state, r.refusal, News::Done)
        }
        Call::Look(place) => {
            let r = hd153108_look::zk_a_look(s, place, colours, overlays);
            look(s, r)
        }
        Call::OfA(call) => own(s, call, colours, overlays),
        Call::OfB(_) => bad(s),
    }
}
