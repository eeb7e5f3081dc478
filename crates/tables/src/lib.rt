// The lent table: which record is which span, which records a change names, and the writing of a record.
#![tactic(auto)]

pub mod named;
pub mod places;
pub mod write;
