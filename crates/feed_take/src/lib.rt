// A log's bytes put to a board, up to the first LF.
//
// The replay's description decides; the rule is `fed` of feed's specs/Feed.antt: `take` equals it for what it takes,
// for any board, hold, text, tables and page. All of them are lent but the board's states. Not modelled: as there.
#![tactic(auto)]

ghost use Rattle.std.specs.Prelude.{◌≡◌, take as first_of};
ghost use Rattle.board.specs.Board.{whole};
ghost use Rattle.hold.specs.Hold.{hold as held, up_to};
ghost use Rattle.feed.specs.Feed.{desk, fed};
ghost use Rattle.feed_take.specs.Fed.{FedTook};

use board::{Board, Step, says};

// The board after some bytes with what they answer, how many bytes of a line are held, and how many were taken.
#[derive(Clone, Copy)]
pub struct Fed {
    pub step: Step,
    pub len: usize,
    pub taken: usize,
}

// The bytes of a log up to the first LF, or all.
// Stays: lent slices one by one. Tried as a struct of them: what a callee leaves is lost where it is passed on whole.
pub fn take(
    board: Board,
    len: usize,
    text: &[u8],
    hold: &mut [u8],
    colours: &mut [u8],
    overlays: &mut [u8],
    queue: &mut [u64],
    map: &mut [u8],
    table: &mut [u16],
    page: &mut [u8],
) -> Fed
    ensures taken { result.taken ≡ up_to text.now }
    ensures took_turn { FedTook result hold.new colours.new overlays.new queue.new
        map.new table.new page.new
        (fed (first_of (up_to text.now) text.now)
        (desk (whole board colours.old overlays.old queue.old
        map.old table.old page.old) (held hold.old len))) }
{
    let h = hold_hear::hear(text, hold, len);
    if h.ends {
        return Fed {
            step: board_answer::answer(board, h.line, colours, overlays, queue, map, table, page),
            len: h.len,
            taken: h.taken,
        };
    }
    Fed {
        step: says(board, answers::empty()),
        len: h.len,
        taken: h.taken,
    }
}
