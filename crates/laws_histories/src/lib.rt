// Demand 3: two lists of loads and edits, one for each chart, and the overlay after them. Definitions are in specs/, the claim in proofs/.

#![tactic(auto)]
