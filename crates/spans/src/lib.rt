// One span of one frame: what is read of it from the floor, and its record of numbers.
#![tactic(auto)]

pub mod record;
pub mod view;
pub mod work;
