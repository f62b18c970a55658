// How many calls a good sheet has, from its lines.
//
// Document 01, "The sheet and its calls", decides; the list is `calls_of` of calls' specs/Calls.antt. Not modelled: as
// there.
#![tactic(auto)]

ghost use Rattle.std.specs.Prelude.{◌≡◌, false, ◌≤◌, ◌<◌, length};
ghost use Rattle.calls.specs.Calls.{calls_of};
ghost use Rattle.calls.specs.Kept.{entry_count, table_count, Kept};

// How many calls an entry has.
#[tactic(auto, unfolding(calls::specs::Kept::entry_count))]
fn entry_count(follows: bool, line: Option<u16>) -> usize
    ensures { (result ≡ entry_count follows line) × (result < 5) }
{
    match line {
        None => 0,
        Some(_) if follows => 3,
        Some(_) => 4,
    }
}

// How many calls a table has.
fn table_count(lines: &[Option<u16>]) -> usize
    requires { length lines.now ≤ 256 }
    ensures { (result ≡ table_count false lines.now) × (result ≤ 1024) }
{
    let mut count = 0;
    let mut joined = false;
    for line in lines {
        count += entry_count(joined, *line);
        joined = line.is_some();
    }
    count
}

// Stays: a struct round the slice that carries `Kept` would be made by the one caller, to be taken apart here.
// How many calls a good sheet has.
pub fn count_of(lines: &[Option<u16>]) -> usize
    requires { Kept lines.now }
    ensures { (result ≡ length (calls_of lines.now)) × (result ≤ 786) }
{
    4 + table_count(&lines[5..9]) + table_count(&lines[9..])
}
