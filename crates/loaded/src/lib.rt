// No code: what holds from end to end. specs/ says it: demand 3 for every file that loads (EveryFile), what walks, traces and loading
// are refused with (Refusals), note 13 (StartedSolid), that 8 comes before 9 (EntityText). proofs/ proves it.
#![tactic(auto)]
