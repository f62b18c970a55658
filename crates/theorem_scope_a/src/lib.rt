// What document 01 says of chip A, row by row, as one statement that no other chip meets. No code.
//
// specs/Scope.antt has document 01's sentences in its order, words and numbers, with P3 and P5 of document 02, over any
// `called`; proofs/Scope.antt shows that the HD153108 meets them, proofs/Determined.antt that two chips that do are one.
// Not modelled: as in hd153108.
#![tactic(auto)]
