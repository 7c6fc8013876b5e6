// The log of an input that comes in portions: definitions, and the law that it is the log of the whole input.

#![tactic(auto)]
