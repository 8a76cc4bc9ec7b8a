// The shadow tables (see specs/Tables.antt): a few words for each cell, and for each processor and cell, from which marks, obstacles,
// private values, partial results and write counts are read off. This crate proves the tables right; it has no code.
#![tactic(auto)]
