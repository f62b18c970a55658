// Reads a port log on standard input, puts it to one board, and prints what it answers.
//
// The replay's description decides; what a byte of the log does and answers is said by crate feed, and when more of it
// is read by crate input. It needs the same memory whatever comes in. The input is read to its end, unless a read or a
// write fails, which ends the program with that error, in at most as many turns as a u64 counts: a turn takes what was
// read up to a line's end, and reads on where all of it was taken. What is printed is said by specs/Replay.antt
// (`Replays`), for a reader that says which bytes it has left and a writer that says which it holds.
#![tactic(auto)]

ghost use Rattle.std.specs.Prelude.{◌≡◌, ℕ, ◌-◌, ◌^◌, ◌<◌, List, Some};
ghost use Rattle.std.specs.Prelude.{length, take as first_of, IfOk, IfSome, OnOk};
ghost use Rattle.std.specs.Io.KnownBytes.{Appends};
ghost use Rattle.hd153108.specs.Hd153108.{Chip as AChip};
ghost use Rattle.rgb640.specs.Rgb640.{Chip as CChip};
ghost use Rattle.board.specs.Board.{Answered};
ghost use Rattle.hold.specs.Hold.{up_to};
ghost use Rattle.feed.specs.Feed.{fed};
ghost use Rattle.printer.specs.Held.{held};
ghost use Rattle.input.specs.Input.{coming};
ghost use Rattle.replay.specs.Replay.{desk_of, first_desk, IsBlack, last_end, answers, Replays};

use board::{Answer, Board, Step};
use feed_take::Fed;
use input::Input;
use printer::Printer;
use std::io;
use std::io::{Read, Write};

// The board's states, and how many bytes of a line are held. What is lent stands apart: beside it each turn would store
// all of the states.
#[derive(Clone, Copy)]
struct Stand {
    board: Board,
    len: usize,
}

// The room for a line's bytes, the tables and the page.
#[derive(Clone, Copy)]
struct Lent {
    hold: [u8; 16],
    colours: [u8; 768],
    overlays: [u8; 12],
    queue: [u64; 64],
    map: [u8; 24576],
    table: [u16; 3072],
    page: [u8; 2134],
}

// A board after its first reset, with tables of zeros; no byte is held.
fn begun() -> (Stand, Lent)
    ensures { (a : AChip) (c : CChip) → IsBlack a c → desk_of result.0 result.1 ≡ first_desk a c }
{
    let queue = [0; 64];
    let stand = Stand {
        board: board_start::start(&queue),
        len: 0,
    };
    let lent = Lent {
        hold: [0; 16],
        colours: [0; 768],
        overlays: [0; 12],
        queue,
        map: [0; 24576],
        table: [0; 3072],
        page: [0; 2134],
    };
    (stand, lent)
}

// An answer behind what waits: a text, or the page's first bytes.
fn say<W: Write>(
    to: &mut W,
    answer: &Answer,
    page: &[u8],
    out: &mut Printer<65536>,
) -> io::Result<()>
    ensures { (text : List ℕ) → Answered answer.now page.now text → OnOk result
        (Appends (held (W.contents to.old) out.old) (held (W.contents to.new) out.new) text) }
{
    let bytes = match answer {
        Answer::Line(text) => text.as_slice(),
        Answer::Page(n) => &page[..page.len().min(*n)],
    };
    out.say_filling(to, bytes)
}

// A text up to its first LF put to the board, and what that answers behind what waits: how many bytes were taken.
// Inlined: as a call it would load and store the board's states at each turn.
#[inline(always)]
fn turn<W: Write>(
    to: &mut W,
    s: &mut Stand,
    lent: &mut Lent,
    text: &[u8],
    out: &mut Printer<65536>,
) -> io::Result<usize>
    ensures taken { IfOk result (λ n. n ≡ up_to text.now) }
    ensures leaves { OnOk result
        (desk_of s.new lent.new ≡ (fed (first_of (up_to text.now) text.now) (desk_of s.old lent.old)).left) }
    ensures says { OnOk result (Appends (held (W.contents to.old) out.old) (held (W.contents to.new) out.new)
        (fed (first_of (up_to text.now) text.now) (desk_of s.old lent.old)).text) }
{
    let Fed { step, len, taken } = feed_take::take(
        s.board,
        s.len,
        text,
        &mut lent.hold,
        &mut lent.colours,
        &mut lent.overlays,
        &mut lent.queue,
        &mut lent.map,
        &mut lent.table,
        &mut lent.page,
    );
    let Step { board, answer } = step;
    s.board = board;
    s.len = len;
    say(to, &answer, &lent.page, out)?;
    Ok(taken)
}

// What the log's end puts to the board: a last line's LF, where one is held without it.
fn last(len: usize) -> &'static [u8]
    ensures { result.now ≡ last_end len }
{
    if len > 0 { b"\n" } else { b"" }
}

// The whole log.
fn replay<R: Read, W: Write>(
    from: &mut R,
    to: &mut W,
    input: &mut Input<65536>,
    s: &mut Stand,
    lent: &mut Lent,
    out: &mut Printer<65536>,
) -> io::Result<()>
    ensures { (log : List ℕ) → coming (R.remaining from.old) input.old.unread ≡ Some log → length log < 2 ^ 64 - 1
        → OnOk result (Appends (held (W.contents to.old) out.old) (W.contents to.new)
        (answers log (desk_of s.old lent.old))) }
{
    for _turn in 0..u64::MAX {
        let more = input.next(from, to, out)?;
        let text = if more { input.rest() } else { last(s.len) };
        let taken = turn(to, s, lent, text, out)?;
        if !more {
            return out.flush(to);
        }
        input.take(taken);
    }
    out.flush(to)
}

// A log, from a board after its first reset.
fn run<R: Read, W: Write>(from: &mut R, to: &mut W) -> io::Result<()>
    ensures { OnOk result
        (IfSome (R.remaining from.old) (Replays (W.contents to.old) (W.contents to.new))) }
{
    let (mut stand, mut lent) = begun();
    replay(
        from,
        to,
        &mut Input::new(),
        &mut stand,
        &mut lent,
        &mut Printer::new(),
    )
}

fn main(rt: HostRuntime) -> io::Result<()> {
    run(&mut rt.stdin(), &mut rt.stdout())
}
