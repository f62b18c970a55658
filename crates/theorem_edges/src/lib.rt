// Document 01, "Both sides of each edge": p1 to p12, one list. No code.
//
// The statement is specs/Edges.antt, the theorem `edges` of proofs/Edges.antt; `edge_met` shows that there are such
// chips. Not modelled: anything that document 01 does not number there.
#![tactic(auto)]
