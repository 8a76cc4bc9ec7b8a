// The cells of a grid in row order and in element order (RULES 9.9): the definitions stand in specs/, the theorems in proofs/Theorem.antt. No code here.
#![tactic(auto)]
