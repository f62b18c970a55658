// The HD153108 (chip A): the ranges that every call tries first, and the blink clock's times.
//
// Source document 003, with document 01's rulings, decides; hd153108's specs/Hd153108.antt says it. Not modelled: as
// there.
#![tactic(auto)]

ghost use Rattle.std.specs.Prelude.{◌≡◌};
ghost use Rattle.vocabulary.specs.Range.{meets, fails};
ghost use Rattle.vocabulary.specs.Refusal.{refusal_of, refusal_in, standing as standing_rows};
ghost use Rattle.hd153108.specs.Hd153108.{on_time, period, is_off, lengths_of, state_ranges};

use hd153108::{Clock, State};
use vocabulary::Refusal;

// On for 4(n+1) ticks, n the low four bits.
fn on_time(timing: u8) -> u8
    ensures { result ≡ on_time timing }
{
    4 * (timing % 16 + 1)
}

// And off for 4(m+1), m the high four.
pub fn period_of(timing: u8) -> u8
    ensures { result ≡ period timing }
{
    on_time(timing) + 4 * (timing / 16 + 1)
}

// Whether a blink clock is in its off time.
#[tactic(auto, unfolding(hd153108::specs::Hd153108::is_off))]
pub fn blink_off(k: Clock) -> bool
    ensures { result ≡ is_off k }
{
    on_time(k.timing) <= k.position
}

// Whether a state is in its ranges.
fn good(s: State) -> bool
    ensures { result ≡ meets (state_ranges s) }
{
    if s.control & 176 != 0 || 3 <= s.pointer || 16 <= s.red || 16 <= s.green {
        return false;
    }
    s.clock.position < period_of(s.clock.timing)
}

// What every call tries first: the lengths of the lent tables, then the state's ranges.
pub fn standing(s: State, colours: usize, overlays: usize) -> Result<(), Refusal>
    ensures { refusal_in result
        ≡ refusal_of (standing_rows (fails (lengths_of colours overlays)) (fails (state_ranges s))) }
{
    if colours != 768 || overlays != 12 {
        return Err(Refusal::LentLength);
    }
    if !good(s) {
        return Err(Refusal::OutOfRange);
    }
    Ok(())
}
