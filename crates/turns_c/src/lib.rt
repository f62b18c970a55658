// A log line's call made on chip C, and the line that answers it.
//
// The replay's description decides; specs/Turns.antt says which call of the chip is made and how its outcome is told.
// The table is lent, the state goes in and comes back by value. Not modelled: as in turns.
#![tactic(auto)]

ghost use Rattle.rgb640.specs.Rgb640.{chip};
ghost use Rattle.turns_c.specs.Turns.{c_turn, CTook};

use answers::News;
use port_log::Call;
use rgb640::State;
use turns::{Taken, bad, look, told};

// A call on chip C.
pub fn c_turn(s: State, call: Call, table: &mut [u16]) -> Taken<State>
    ensures { CTook result table.new (c_turn call (chip s table.old)) }
{
    match call {
        Call::Write(port, byte) => {
            let r = rgb640_write::zk_c_write(s, port, byte, table);
            told(r.state, r.refusal, News::Done)
        }
        Call::Read(port) => {
            let r = rgb640_read::zk_c_read(s, port, table);
            told(r.state, r.refusal, News::Value(r.value))
        }
        Call::Reset => {
            let r = rgb640_reset::zk_c_reset(s);
            told(r.state, r.refusal, News::Done)
        }
        Call::Look(place) => {
            let r = rgb640_look::zk_c_look(s, place, table);
            look(s, r)
        }
        Call::OfA(_) | Call::OfB(_) => bad(s),
    }
}
