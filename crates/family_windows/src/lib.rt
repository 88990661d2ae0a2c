// A file of families, read in windows: each family is answered by what the program is for.
#![tactic(auto)]

pub mod files;
pub mod output;
pub mod passes;
pub mod service;
pub mod windows;
