// Laws of the charts that a caller lends, and of the charts that loads and edits leave; the definitions are in spec_calls.

#![tactic(auto)]
