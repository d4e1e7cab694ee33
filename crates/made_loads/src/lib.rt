// No code: every made-up map loads, is accepted, and reads back as its numbers say. specs/ says it, proofs/ proves it.
#![tactic(auto)]
