// One record of the floor file, by kind, on plain numbers (01, "The floor file").
#![tactic(auto)]

pub mod kinds;
pub mod ranges;
