// The HD153108's blink clock (chip A): a tick by value, and on a lent clock.
//
// Source document 003, Tables 5.1 and 5.2, with document 01's rulings, decides; the rule is `tick` of hd153108's
// specs/Hd153108.antt, which is `called` of `ticks` on the chip that has the clock (`tick_lent`). Not modelled: as
// there.
#![tactic(auto)]

ghost use Rattle.std.specs.Prelude.{◌≡◌};
ghost use Rattle.hd153108.specs.Hd153108.{clock, tick, clock_outcome};
ghost use Rattle.hd153108_tick.specs.Step.{stepping};

use hd153108::Clock;
use hd153108_range::period_of;
use vocabulary::Refusal;

// What a blink step answers.
// Stays: the refusal is a number here and in the answer of a lent tick, since C has them.
#[repr(C)]
#[derive(Clone, Copy)]
pub struct ClockAnswer {
    pub refusal: u8,
    pub clock: Clock,
}

// The blink position after a tick, or why there is none.
fn step(timing: u8, position: u8) -> Result<u8, Refusal>
    ensures { stepping timing position result ≡ tick (clock timing position) }
{
    let period = period_of(timing);
    if period <= position {
        return Err(Refusal::OutOfRange);
    }
    Ok((position + 1) % period)
}

// One tick more, by value.
pub fn zk_a_step(k: Clock) -> ClockAnswer
    ensures { clock_outcome result.refusal result.clock ≡ tick k }
{
    match step(k.timing, k.position) {
        Ok(position) => ClockAnswer {
            refusal: 0,
            clock: Clock { position, ..k },
        },
        Err(r) => ClockAnswer {
            refusal: u8::from(r),
            clock: k,
        },
    }
}

// One tick more, on a lent clock; where it is refused the clock stays as it is.
pub fn zk_a_tick(k: &mut Clock) -> u8
    ensures { clock_outcome result k.new ≡ tick k.old }
{
    match step(k.timing, k.position) {
        Ok(position) => {
            k.position = position;
            0
        }
        Err(r) => u8::from(r),
    }
}
