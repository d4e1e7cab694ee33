// No code: what holds of the calls for C, in the words of include/bsp29.h. specs/ says it: what they are refused with (Refusals), demand 3
// from bsp_load to the lists of nodes (EveryCall), note 13 (StartedSolid). proofs/ proves it.
#![tactic(auto)]
