// The call list of a sheet, the writes to chip A that load it: its definition and its laws. No code.
//
// Document 01, "The sheet and its calls", decides; specs/Calls.antt says what the list is and when the step is refused.
// calls_count counts it, calls_write writes it, and sheet_calls is the step from a text to a buffer. Not modelled:
// whether a chip is there to take the calls.
#![tactic(auto)]
