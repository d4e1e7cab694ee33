// No code: trials of the calls for C that load a file and answer its records, texts and textures, computed from their definitions.
// specs/Calls.antt has them in one table, proofs/Calls.antt computes them all.
#![tactic(auto)]
