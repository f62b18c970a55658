// The sheet line: chip A's sheet on the page, or its refusal; bad on the chips that have none.
//
// The replay's description decides; the rule is `sheet_turn` of board's specs/Board.antt. The page is lent, and the
// tables are. Not modelled: as there.
#![tactic(auto)]

ghost use Rattle.std.specs.Prelude.{◌≡◌, ℕ, List};
ghost use Rattle.board.specs.Board.{whole, sheet_turn, StepTook};
ghost use Rattle.board_sheet.specs.Listed.{listed};

use board::{Answer, Board, Step, says};
use port_log::Chip;

// The writer's answer: so many bytes of the page, or the refusal.
fn told(answer: sheet::Answer) -> Answer
    ensures { result ≡ listed answer }
{
    match answer {
        Ok(n) => Answer::Page(usize::from(n)),
        Err(e) => Answer::Line(answers_line::refused(u8::from(e.refusal))),
    }
}

// The sheet of the chip that has one, on the page.
#[tactic(auto, using(crate::proofs::Sheets::sheets))]
pub fn sheet(board: Board, colours: &[u8], overlays: &[u8], page: &mut [u8]) -> Step
    ensures took_turn { (queue map table : List ℕ)
        → StepTook result colours.now overlays.now queue map table page.new
        (sheet_turn board.chosen
        (whole board colours.now overlays.now queue map table page.old)) }
    ensures same_board { result.board ≡ board }
{
    match board.chosen {
        Chip::ChipA => {
            let answer = told(sheet_writer::write_sheet(board.a, colours, overlays, page));
            Step { board, answer }
        }
        Chip::ChipB | Chip::ChipC => says(board, answers::bad()),
    }
}
