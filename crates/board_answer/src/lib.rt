// Any log line on the board: its call made, and its whole answer.
//
// The replay's description decides; `answer` equals `board_turn` of board's specs/Board.antt for any board, line,
// tables and page. The tables and the page are lent. Not modelled: as there.
#![tactic(auto)]

ghost use Rattle.board.specs.Board.{whole, board_turn, StepTook};

use board::{Board, Step, says};
use port_log::Line;

// A line's call made, and its whole answer.
// Stays: lent slices one by one. Tried as a struct of them: what a callee leaves is lost where it is passed on whole.
pub fn answer(
    board: Board,
    line: Line,
    colours: &mut [u8],
    overlays: &mut [u8],
    queue: &mut [u64],
    map: &mut [u8],
    table: &mut [u16],
    page: &mut [u8],
) -> Step
    ensures { StepTook result colours.new overlays.new queue.new
        map.new table.new
        page.new
        (board_turn line
        (whole board colours.old overlays.old queue.old
        map.old table.old
        page.old)) }
{
    match line {
        Line::To(c) => board_call::call(board, c, colours, overlays, queue, map, table),
        Line::Choose(chip) => says(
            Board {
                chosen: chip,
                ..board
            },
            answers::ok(),
        ),
        Line::Expand(width, v) => says(board, turns::expand(width, v)),
        Line::Sheet => board_sheet::sheet(board, colours, overlays, page),
        Line::Bad => says(board, answers::bad()),
    }
}
