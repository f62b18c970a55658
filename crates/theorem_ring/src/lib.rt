// The MS622424's ring of waiting colours is equal to the queue that it was before.
//
// Request P7 of document 02 decides: "Show it equal to the old queue: the same entries, oldest first, after each call,
// and the same answers." specs/OldQueue.antt has the old queue, a definition without code; specs/Ring.antt says what
// equal means. Not modelled: a look at the first position, which the old queue had not, is answered by the ring alone.
#![tactic(auto)]
