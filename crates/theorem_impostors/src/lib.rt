// The impostors of document 01, "How much each statement has to say", put to every call of every chip by one law. No
// code.
//
// specs/Impostors.antt says what an impostor is and which ones each kind of call catches; proofs/Law.antt is the law,
// proofs/ChipA.antt to ChipC.antt have for each kind the calls that it goes by, taken from document 01's rows
// (theorem_scope_a, _b, _c). Not modelled: as in the chips' crates.
#![tactic(auto)]
