// What document 01 says of chip C, row by row, as one statement that no other chip meets. No code.
//
// specs/Scope.antt has document 01's sentences in its order, words and numbers, with P5 of document 02, over any
// `called`; proofs/Index.antt, Data.antt and Scope.antt show that the RGB640's palette port meets them,
// proofs/Determined.antt that a chip that does is that chip. Not modelled: as in rgb640.
#![tactic(auto)]
