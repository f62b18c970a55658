// The board's own lines of a port log, the expander, the sheet and the choice of a chip; a look; or a bad line.
//
// The replay's line forms decide; they are `board_forms` and `look_forms` of port_log's specs/Log.antt. Not modelled:
// as in port_log.
#![tactic(auto, using(port_log::proofs::Patterns::forms))]

ghost use Rattle.std.specs.Prelude.{◌≡◌, ◌++◌};
ghost use Rattle.port_log.specs.Log.{said, board_forms, choices, look_forms};

use port_log::{Call, Chip, Line};

// A look, or a bad line.
fn look(t: &[u8]) -> Line
    ensures { result ≡ said look_forms t.now }
{
    if log_pattern::fits(b"look=#####", t) {
        return Line::To(Call::Look(hex_number::spelt(t, 5, 5)));
    }
    Line::Bad
}

// A line that chooses a chip, a look, or a bad line.
fn choice(t: &[u8]) -> Line
    ensures { result ≡ said (choices ++ look_forms) t.now }
{
    // Stays: each form says something of its own, so a table would hold a pattern and a closure a form, no plainer.
    if log_pattern::fits(b"chip=153108", t) {
        return Line::Choose(Chip::ChipA);
    }
    if log_pattern::fits(b"chip=622424", t) {
        return Line::Choose(Chip::ChipB);
    }
    if log_pattern::fits(b"chip=640", t) {
        return Line::Choose(Chip::ChipC);
    }
    look(t)
}

// A line of the board's own, a look, or a bad line.
pub fn board_line(t: &[u8]) -> Line
    ensures { result ≡ said (board_forms ++ look_forms) t.now }
{
    if log_pattern::fits(b"expand=#####", t) {
        return Line::Expand(
            hex_number::spelt_byte(t, 7, 1),
            hex_number::spelt_word(t, 8, 4),
        );
    }
    if log_pattern::fits(b"sheet", t) {
        return Line::Sheet;
    }
    choice(t)
}
