// The board at the start of a replay.
//
// The replay's description decides; the rule is `started` of board's specs/Board.antt: every state as a reset leaves
// it, chip B's revision 3 and board number 5, chip A chosen. Not modelled: as there.
#![tactic(auto)]

ghost use Rattle.std.specs.Prelude.{◌≡◌, ℕ, List};
ghost use Rattle.hd153108.specs.Hd153108.{Chip as AChip, zeroed as a_zeroed};
ghost use Rattle.ms622424.specs.Ms622424.{resets as b_resets, called as b_called};
ghost use Rattle.ms622424_places.specs.Places.{handed, view};
ghost use Rattle.rgb640.specs.Rgb640.{Chip as CChip, zeroed as c_zeroed};
ghost use Rattle.board.specs.Board.{whole, revised, started};

use board::Board;
use hd153108::State as AState;
use ms622424_places::State as BState;
use port_log::Chip;
use rgb640::State as CState;

// Chip A after its first reset, which reads nothing of the state before.
// Stays: zeros written out, beside the two numbers of `revised` that are not 0; a reset's definition has them so, too.
fn a_start() -> AState
    ensures { result ≡ a_zeroed }
{
    let given = AState {
        address: 0,
        pointer: 0,
        red: 0,
        green: 0,
        readmask: 0,
        blinkmask: 0,
        control: 0,
        clock: hd153108::Clock {
            timing: 0,
            position: 0,
        },
    };
    hd153108_reset::zk_a_reset(given).state
}

// Chip B's state before: its revision is 3 and its board number 5.
fn b_given() -> BState
    ensures { result ≡ revised }
{
    BState {
        port: ms622424::Port {
            address: 0,
            counter: 0,
            red: 0,
            green: 0,
        },
        control: ms622424::Control {
            command: 0,
            readmode: 0,
        },
        ident: ms622424::Ident {
            revision: 3,
            board: 5,
        },
        fifo: ms622424_places::Fifo {
            first: 0,
            waiting: 0,
        },
    }
}

#[tactic(auto, using(board::proofs::Resets::b_left))]
fn b_start(queue: &[u64]) -> BState
    ensures { (map : List ℕ) → view (handed result queue.now map)
        ≡ (b_called b_resets (view (handed revised queue.now map))).left }
{
    ms622424_reset::zk_b_reset(b_given(), queue).state
}

// Chip C after its first reset, which reads nothing of the state before either.
fn c_start() -> CState
    ensures { result ≡ c_zeroed }
{
    let given = CState {
        index: 0,
        red: 0,
        green: 0,
        fetched: rgb640::Colour {
            red: 0,
            green: 0,
            blue: 0,
        },
        place: 0,
        update: 0,
    };
    rgb640_reset::zk_c_reset(given).state
}

// The board at the start.
#[tactic(auto, using(board::proofs::Resets::starts))]
pub fn start(queue: &[u64]) -> Board
    ensures { (a : AChip) (map : List ℕ) (c : CChip) (page : List ℕ)
        → whole result a.colours a.overlays queue.now map c.table page
        ≡ started a queue.now map c page }
{
    Board {
        a: a_start(),
        b: b_start(queue),
        c: c_start(),
        chosen: Chip::ChipA,
    }
}
