// The claims over the whole: what holds of every public call, over the definitions that the calls promise. No code.
//
// proofs/CallsA.antt to CallsSheet.antt: for each call, a refusal is the first that is due, and keeps all as given
// (`Judged` of vocabulary); two answers that its promise allows are equal (proofs/Determined.antt). proofs/Kept.antt:
// a chip in range stays in range. proofs/Impostors.antt: queues that the statements rule out. Document 01 decides;
// "The nine refusals" gives the order. Not modelled: as in the crates of the calls.
#![tactic(auto)]
