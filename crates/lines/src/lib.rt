// A floor's lines and panels: widths, α, and a panel's least thickness.
#![tactic(auto)]

pub mod line;
pub mod panel;
pub mod slab;
pub mod survey;
