// The formulas of a line on plain numbers (01, "Line stiffness"): the beam's section, α, and the widths across the line.
#![tactic(auto)]

pub mod line;
pub mod section;
