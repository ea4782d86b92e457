// The protocol of document 01: its definitions are in specs/, what is proved of them is the contracts of these functions.
#![tactic(auto)]

pub mod cases;
pub mod honest;
pub mod pairs;
