// What document 01 says of chip B, the MS622424, as rows: a call, and what it answers and leaves. No code.
//
// specs/Scope.antt says it in document 01's words and numbers, of any chip; proofs/ proves that the MS622424 meets it,
// and that a chip which meets it is the MS622424, refusals included. Not modelled: how a caller keeps the chip, which
// ms622424_places says.
#![tactic(auto)]
