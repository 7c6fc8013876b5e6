// Document 01's command program as definitions: the log that it writes, on plain tables. No code.

#![tactic(auto)]
