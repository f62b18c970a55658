// The values of a sheet, from chip A's state and tables, key by key.
//
// Document 01, "The sheet and its calls", decides; the values are `values` of sheet's specs/Sheet.antt. The caller owns
// state and tables. Not modelled: as in sheet_writer.
#![tactic(auto)]

ghost use Rattle.std.specs.Prelude.{◌≡◌, false, ◌+◌, ◌*◌, ◌≤◌, ◌<◌, length, get_or};
ghost use Rattle.hd153108.specs.Hd153108.{chip};
ghost use Rattle.sheet.specs.Sheet.{keys, colours_in, values, over_fifteen_in};
ghost use Rattle.sheet_written.specs.Writer.{Writable};

use hd153108::State;

// An entry's colour: its three bytes as hex digits.
#[tactic(auto, using(sheet_written::proofs::Values::low_at, sheet_written::proofs::Values::colour_at_lem))]
fn colour(table: &[u8], entry: usize) -> u16
    requires { (3 * entry + 3 ≤ length table.now) × (over_fifteen_in table.now ≡ false) }
    ensures { result ≡ get_or (colours_in table.now) entry 0 }
{
    let at = 3 * entry;
    (table[at] as u16 * 16 + table[at + 1] as u16) * 16 + table[at + 2] as u16
}

// A key's value.
// Stays: state and tables are the documented parameters of write_sheet, which hands them on unchanged.
#[tactic(auto, unfolding(sheet::specs::Sheet::values))]
pub fn value(s: State, colours: &[u8], overlays: &[u8], k: u16) -> u16
    requires { (k < keys) × Writable (chip s colours.now overlays.now) }
    ensures { result ≡ get_or (values (chip s colours.now overlays.now)) k 0 }
{
    match k {
        0 => 0,
        1 => s.readmask as u16,
        2 => s.blinkmask as u16,
        3 => s.control as u16,
        4 => s.clock.timing as u16,
        5..=8 => colour(overlays, (k - 5) as usize),
        _ => colour(colours, (k - 9) as usize),
    }
}
