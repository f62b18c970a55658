// What each access leaves as it was: for every register of every chip an equation, the chip afterwards is the chip
// before but for the parts that are named. No code.
//
// specs/MovesA.antt to MovesC.antt name the parts, proofs/MovesA.antt to MovesC.antt prove it of the chips' faces.
// Document 01 and the data sheets decide what an access moves. Not modelled: time, and what the panel shows.
#![tactic(auto)]
