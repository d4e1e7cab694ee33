// No code: fields as bytes (specs/), and what the readers, the sections and the tree check make of bytes and chains so written (proofs/).
#![tactic(auto)]
