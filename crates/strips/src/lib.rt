// The formulas of a span's moments, on plain numbers (01, "Moments"): static moment, ratios, end-span table, column strip parts, the division of a section.
#![tactic(auto)]

pub mod endspan;
pub mod span;
pub mod strip;
