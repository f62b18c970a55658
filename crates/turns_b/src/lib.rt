// A log line's call made on chip B, and the line that answers it.
//
// The replay's description decides; specs/Turns.antt says which call of the chip is made and how its outcome is told.
// The queue and the map are lent, the state goes in and comes back by value. Not modelled: as in turns.
#![tactic(auto)]

ghost use Rattle.ms622424_places.specs.Places.{handed, view};
ghost use Rattle.turns_b.specs.Turns.{b_turn, b_own, BTook};

use answers::News;
use ms622424_places::State;
use port_log::{Call, CallB};
use turns::{Taken, bad, look, shown, told};

// A call that chip B alone has.
fn own(s: State, call: CallB, queue: &[u64], map: &mut [u8]) -> Taken<State>
    ensures { BTook result queue.now map.new
        (b_own call (view (handed s queue.now map.old))) }
{
    match call {
        CallB::Pixel(mode, word) => {
            let p = ms622424_pixel::zk_b_pixel(s, mode, word, queue, map);
            shown(s, p)
        }
        CallB::Blank(slots) => {
            let r = ms622424_blank::zk_b_blank(s, slots, queue, map);
            told(r.state, r.refusal, News::Moved(r.count))
        }
        CallB::Sync(signals) => {
            let r = ms622424_signals::zk_b_sync(s, signals, queue);
            told(r.state, r.refusal, News::Sync(r.value))
        }
    }
}

// A call on chip B.
pub fn b_turn(s: State, call: Call, queue: &mut [u64], map: &mut [u8]) -> Taken<State>
    ensures { BTook result queue.new map.new
        (b_turn call (view (handed s queue.old map.old))) }
{
    match call {
        Call::Write(select, byte) => {
            let r = ms622424_write::zk_b_write(s, select, byte, queue, map);
            told(r.state, r.refusal, News::Moved(r.count))
        }
        Call::Read(select) => {
            let r = ms622424_read::zk_b_read(s, select, queue, map);
            told(r.state, r.refusal, News::Value(r.value))
        }
        Call::Reset => {
            let r = ms622424_reset::zk_b_reset(s, queue);
            told(r.state, r.refusal, News::Done)
        }
        Call::Look(place) => {
            let r = ms622424_look::zk_b_look(s, place, queue, map);
            look(s, r)
        }
        Call::OfA(_) => bad(s),
        Call::OfB(call) => own(s, call, queue, map),
    }
}
