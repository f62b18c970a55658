// Loading: a sheet's calls, made on chip A, leave the sheet there; and what chip A holds comes back through its sheet.
//
// Definitions and laws alone, over the definitions of hd153108 (source document 003), sheet and calls (document 01,
// "The sheet and its calls"): specs/Load.antt states the two claims of texts and calls, specs/CallToCall.antt of the
// bytes that calls leave in a caller's buffers, and proofs/ holds the theorems. Not modelled: as in sheet and calls.
#![tactic(auto)]
