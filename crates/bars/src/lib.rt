// What the bar schedule says of one strip (02, Five): the width left for bars, the bars, and the record's 32 bytes.
#![tactic(auto)]

pub mod choice;
pub mod entry;
pub mod width;
