// Demand 3's premises can be met: after an accepted reset any 192 bytes for the palette fill chip B's queue, one more
// forces a transfer, and the pixels and reads that the theorem is about are accepted. No code.
//
// specs/Premises.antt says what a run has to show, proofs/ that there is one. Document 01, "Chip B", decides. Not
// modelled: as in ms622424.
#![tactic(auto)]
