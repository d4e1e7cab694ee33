// No code: trials of the calls for C that ask a hull, computed from their definitions. specs/Calls.antt has them in one table,
// proofs/Calls.antt computes them all.
#![tactic(auto)]
