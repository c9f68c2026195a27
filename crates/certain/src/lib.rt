// What is certain of a correction with few marks: of the definition, of the station's reply call and of the printed line; no code of its own.
// It stands apart so that a wrong definition is refused in the crates below without it.
#![tactic(auto)]
