// Document 02's swing window on plain tables and entries as definitions. No code.

#![tactic(auto)]
