// A log line's call made on the chip chosen last.
//
// The replay's description decides; the rule is `chip_turn` of board's specs/Board.antt. The tables are lent. Not
// modelled: as there.
#![tactic(auto)]

ghost use Rattle.std.specs.Prelude.{ℕ, List};
ghost use Rattle.board.specs.Board.{whole, chip_turn, StepTook};

use board::{Board, Step, says};
use port_log::{Call, Chip};

// A call on the chip chosen last.
// Stays: lent slices one by one. Tried as a struct of them: what a callee leaves is lost where it is passed on whole.
#[tactic(auto, using(crate::proofs::Turned::turned))]
pub fn call(
    board: Board,
    call: Call,
    colours: &mut [u8],
    overlays: &mut [u8],
    queue: &mut [u64],
    map: &mut [u8],
    table: &mut [u16],
) -> Step
    ensures { (page : List ℕ)
        → StepTook result colours.new overlays.new queue.new
        map.new table.new page
        (chip_turn board.chosen call
        (whole board colours.old overlays.old queue.old
        map.old table.old page)) }
{
    match board.chosen {
        Chip::ChipA => {
            let t = turns_a::a_turn(board.a, call, colours, overlays);
            says(
                Board {
                    a: t.state,
                    ..board
                },
                t.text,
            )
        }
        Chip::ChipB => {
            let t = turns_b::b_turn(board.b, call, queue, map);
            says(
                Board {
                    b: t.state,
                    ..board
                },
                t.text,
            )
        }
        Chip::ChipC => {
            let t = turns_c::c_turn(board.c, call, table);
            says(
                Board {
                    c: t.state,
                    ..board
                },
                t.text,
            )
        }
    }
}
