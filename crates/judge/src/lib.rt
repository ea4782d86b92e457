// The judge (document 01, Judge, level 2): the first number that applies to a transcript.
#![tactic(auto)]

mod parts;
pub mod run;
