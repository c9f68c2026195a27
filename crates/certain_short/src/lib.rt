// What is certain of a short message beyond five marks: at 56 bits the distance is 8, so seven marks are never in doubt; no code of its own.
// It stands apart because the distance takes seconds to work out.
#![tactic(auto)]
