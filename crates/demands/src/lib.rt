//! No code: demands 1 to 3 stated over the definitions that the calls' contracts name, and proved by citing their laws. A reader who wants to know what
//! is promised reads this folder.
#![tactic(auto)]
