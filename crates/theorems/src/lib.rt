// Demands 2 and 3, on what the entries answer: theorems, stated in specs/ and proved in proofs/.
#![tactic(auto)]
