// Lists: definitions and laws for the crates above. No code.

#![tactic(auto)]
