// The MS622424's queue can't be seen: whenever its entries move, what the chip shows and answers is as if each
// completed colour had been written into the map at once. A theorem alone, over the definitions that the chip's calls
// promise. What decides: 004, "Write FIFO", and document 01, "Chip B". Not modelled: anyone else who writes the map.
// specs/Unseen.antt is the statement and specs/Made.antt the same of calls as a caller makes them; proofs/Unseen.antt
// and proofs/Made.antt are the theorems, and proofs/Premises.antt has runs that meet the premises.
#![tactic(auto)]
