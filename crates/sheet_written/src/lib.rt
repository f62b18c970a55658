// What the writer of a sheet writes: its values and its length, and that reading it gives them back. No code.
//
// Document 01, "The sheet and its calls", decides; the writer is `write` of sheet's specs/Sheet.antt. Which state and
// tables it takes is in specs/Writer.antt; proofs/Size.antt bounds every sheet, proofs/Round.antt is law 4, and
// proofs/Ends.antt has the call by how it ends. The code is in sheet_over, sheet_values, sheet_lines and sheet_writer.
// Not modelled: as there.
#![tactic(auto)]
