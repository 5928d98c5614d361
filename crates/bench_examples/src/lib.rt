//! No code: the examples that document 01 marks for proof, from the bytes of a sheet to the answer, as one table of the definitions.
#![tactic(auto)]
