// The lettered cases of document 01: definitions and a theorem, in specs/ and proofs/.
#![tactic(auto)]
