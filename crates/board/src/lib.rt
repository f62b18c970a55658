// A board with one chip A, one B and one C: the states that a caller keeps, the definitions of what a log line does,
// and their laws.
//
// The replay's description decides; specs/Board.antt says what a line does to the whole board (`board_turn`) and how it
// starts (`started`). The code stands in crates of its own: board_start, board_call, board_sheet and, of any line,
// board_answer. The tables are lent, and so is the page, the bytes that a sheet is written on. Not modelled: a log's
// bytes and lines.
#![tactic(auto)]

ghost use Rattle.std.specs.Prelude.{◌≡◌};
ghost use Rattle.board.specs.Board.{says};

use answers::Text;
use hd153108::State as AState;
use ms622424_places::State as BState;
use port_log::Chip;
use rgb640::State as CState;

// The three chips' states, and the chip chosen last.
#[derive(Clone, Copy)]
pub struct Board {
    pub a: AState,
    pub b: BState,
    pub c: CState,
    pub chosen: Chip,
}

// The answer to a line: a text, or so many of the page's first bytes.
#[derive(Clone, Copy)]
pub enum Answer {
    Line(Text),
    Page(usize),
}

// A board after a line, and the answer.
#[derive(Clone, Copy)]
pub struct Step {
    pub board: Board,
    pub answer: Answer,
}

// A board after a line that a text answers.
pub fn says(board: Board, text: Text) -> Step
    ensures { result ≡ says board text }
{
    Step {
        board,
        answer: Answer::Line(text),
    }
}
