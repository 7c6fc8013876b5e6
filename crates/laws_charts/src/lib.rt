// Laws of the definitions of spec_charts and spec_window; no code.

#![tactic(auto)]
