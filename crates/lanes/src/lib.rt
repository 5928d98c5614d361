//! Tables of lanes: for each vertex or edge a row with one entry for each assignment of a component's signals. Definitions and laws; the code is in the crates
//! `lane_values` and `connections`.
#![tactic(auto)]
