// Definitions and laws only: they stand in specs/ and proofs/.
#![tactic(auto)]
