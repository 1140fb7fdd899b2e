// Rows alone: what commands store, and what recovery makes of each cut.

#![tactic(auto)]
