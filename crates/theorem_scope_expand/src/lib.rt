// What documents 01 and 02 say of the expander, row by row, as one statement that no other expander meets. No code.
//
// specs/Scope.antt has their sentences in their words and numbers, over any `called`, and what every width has;
// proofs/Scope.antt shows that the expander meets both, and that one that meets the sentences is that expander. Not
// modelled: as in expand.
#![tactic(auto)]
