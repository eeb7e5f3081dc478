// What makes a file a floor file (01, "The floor file" and "Refusal numbers"): refusals 1 to 7.
#![tactic(auto)]

pub mod refusal;
