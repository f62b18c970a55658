// A line of a port log, from bytes to what it asks for.
//
// The replay's line forms decide; specs/Log.antt of port_log says each as a pattern, and `parse` equals it for any
// bytes. A line is given without its LF. Not modelled: as in port_log.
#![tactic(auto, using(port_log::proofs::Patterns::forms))]

ghost use Rattle.std.specs.Prelude.{◌≡◌};
ghost use Rattle.port_log.specs.Log.{line_of};

use port_log::{Call, Line};

// What a line says, whatever its bytes are.
pub fn parse(t: &[u8]) -> Line
    ensures { result ≡ line_of t.now }
{
    // Stays: each form says something of its own, so a table would hold a pattern and a closure a form, no plainer.
    if log_pattern::fits(b"w#=##", t) {
        return Line::To(Call::Write(
            hex_number::spelt_byte(t, 1, 1),
            hex_number::spelt_byte(t, 3, 2),
        ));
    }
    if log_pattern::fits(b"r#", t) {
        return Line::To(Call::Read(hex_number::spelt_byte(t, 1, 1)));
    }
    if log_pattern::fits(b"reset", t) {
        return Line::To(Call::Reset);
    }
    log_chips::a_line(t)
}
