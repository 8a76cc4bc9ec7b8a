// The one printed form of a loop text (RULES 1.15): the definitions stand in specs/, the theorems in proofs/Theorem.antt. No code here.
#![tactic(auto)]
