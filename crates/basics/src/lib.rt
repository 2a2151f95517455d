// What every layer uses and no layer owns: the refusals, by their numbers in the documents.
#![tactic(auto)]

mod refusal; // refusal.rt: the refusals and their numbers

pub use refusal::{Fault, Refusal};
