// Walks, traces and the tree check over any node table: definitions in specs/, their theory in proofs/. There is no code here.
#![tactic(auto)]
