// Morton keys, key ranges, leaves, entries and the chain rule, and two chains cut into blocks, over any arity and depth. No code.

#![tactic(auto)]
