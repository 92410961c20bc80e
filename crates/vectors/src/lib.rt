// What the programs that replay recorded answers share: the calls, the items of a vector file, whether an answer is the recorded one, and the
// counts of calls and differences with their lines.
#![tactic(auto)]

pub mod calls;
pub mod counts;
pub mod items;
pub mod lines;
pub mod runs;
pub mod said;
