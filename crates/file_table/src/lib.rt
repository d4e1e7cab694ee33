// No code: trials of small maps in bytes, computed from the definitions: of acceptance, of the place of a refusal and of the texture section.
// specs/ has them in tables, proofs/ computes them.
#![tactic(auto)]
