// A log's bytes put to a board, one after another: definitions and their laws. The code stands in feed_take.
//
// The replay's description decides: LF ends a line, and a line of another shape than the forms is bad, of any length.
// specs/Feed.antt says what bytes do (`fed`). No form has 16 bytes, so that a room of 16 is enough: proofs/Lines.antt
// shows that a line of any length is then answered as the line that it is. Not modelled: where the bytes come from and
// where the answers go, which is the program's.
#![tactic(auto)]
