// The lines of a port log that one chip alone has, chip A's and chip B's; or one that log_board reads.
//
// The replay's line forms decide; they are `a_forms` and `b_forms` of port_log's specs/Log.antt. Not modelled: as in
// port_log.
#![tactic(auto, using(port_log::proofs::Patterns::forms))]

ghost use Rattle.std.specs.Prelude.{◌≡◌, ◌++◌};
ghost use Rattle.port_log.specs.Log.{said, a_forms, b_forms, board_forms, look_forms, shows};

use port_log::{Call, CallA, CallB, Line};

// Chip A's pixel, of an enable that there is.
fn pixel(enable: u8, number: u8, byte: u8) -> Line
    ensures { result ≡ shows enable number byte }
{
    if enable < 2 {
        return Line::To(Call::OfA(CallA::Pixel(enable, number, byte)));
    }
    Line::Bad
}

// A call that chip B alone has, or a line that log_board reads.
fn b_line(t: &[u8]) -> Line
    ensures { result ≡ said (b_forms ++ board_forms ++ look_forms) t.now }
{
    // Stays: each form says something of its own, so a table would hold a pattern and a closure a form, no plainer.
    if log_pattern::fits(b"pixel=#########", t) {
        return Line::To(Call::OfB(CallB::Pixel(
            hex_number::spelt_byte(t, 6, 1),
            hex_number::spelt(t, 7, 8),
        )));
    }
    if log_pattern::fits(b"blank=########", t) {
        return Line::To(Call::OfB(CallB::Blank(hex_number::spelt(t, 6, 8))));
    }
    if log_pattern::fits(b"sync=#", t) {
        return Line::To(Call::OfB(CallB::Sync(hex_number::spelt_byte(t, 5, 1))));
    }
    log_board::board_line(t)
}

// The same, or a call that chip A alone has.
pub fn a_line(t: &[u8]) -> Line
    ensures { result ≡ said (a_forms ++ b_forms ++ board_forms ++ look_forms) t.now }
{
    if log_pattern::fits(b"tick", t) {
        return Line::To(Call::OfA(CallA::Tick));
    }
    if log_pattern::fits(b"pixel=####", t) {
        return pixel(
            hex_number::spelt_byte(t, 6, 1),
            hex_number::spelt_byte(t, 7, 1),
            hex_number::spelt_byte(t, 8, 2),
        );
    }
    b_line(t)
}
