// Theorems over page lookup on every sound pool; the definitions are in specs/, and the proofs beside them.

#![tactic(auto)]
