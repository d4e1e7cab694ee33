// No code: request 7 on a root that passed the tree check, for every file that loads. specs/ says it, proofs/ proves it.
#![tactic(auto)]
