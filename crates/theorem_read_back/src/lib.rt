// What is written reads back: on chip B, the MS622424, through select 2, its queue and its map; on chip C, the palette
// port of the RGB640, through port 6.
//
// specs/ReadBackB.antt and specs/ReadBackC.antt state it over runs of calls; the files of the same names in proofs/ show
// it of ms622424's and rgb640's definitions, and proofs/Impostors.antt has two wrong chips that it refuses. Source
// document 004, "Write FIFO" and "Truth Table", and 001, section 9.4.1, decide how an entry is written and read. Not
// modelled: as in ms622424 and rgb640.
#![tactic(auto)]
