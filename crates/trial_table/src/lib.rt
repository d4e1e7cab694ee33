// No code: document 01's trials about the definitions. specs/Trials.antt has them in one table, proofs/Trials.antt computes them all.
#![tactic(auto)]
