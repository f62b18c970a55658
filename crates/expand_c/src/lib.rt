// The component expander for C: the answer in one number.
//
// Document 02, P4, decides; the answers are `expansion` of expand's specs/Expand.antt, as the vocabulary tells them.
// Not modelled: as in expand.
#![tactic(auto)]

ghost use Rattle.std.specs.Prelude.{◌≡◌};
ghost use Rattle.vocabulary.specs.Reply.{decoded, telling};
ghost use Rattle.expand.specs.Expand.{expansion, meaning};

use vocabulary::Refusal;

// The number that tells C an answer.
fn told(e: Result<u16, Refusal>) -> u64
    ensures { decoded result ≡ telling (meaning e) }
{
    match e {
        Ok(t) => reply::packed(0, t, 0, 0),
        Err(r) => reply::packed(u8::from(r), 0, 0, 0),
    }
}

#[unsafe(no_mangle)]
pub extern "C" fn zk_expand(width: u32, v: u32) -> u64
    ensures { decoded result ≡ telling (expansion width v) }
{
    told(expand_widths::expand(width, v))
}
