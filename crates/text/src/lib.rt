// What the programs print, each as a Display: the lines of a schedule's records, and those of a refusal. The words of a sheet
// have contracts; what a writer does with them no contract can say, so that the printing is proved safe and ending.
#![tactic(auto)]

mod lines;
mod refusal;
mod words;

pub use lines::Schedule;
pub use refusal::{Diagnosis, Refused};
pub use words::{Word, Words, width};
