// The pair reader (document 01, Pair reader, level 3): what must lie behind two transcripts.
#![tactic(auto)]

mod place;
pub mod reader;
mod sides;
