// No code: what holds of whole-line traces on every file that loads. specs/ says it, proofs/ proves it.
#![tactic(auto)]
