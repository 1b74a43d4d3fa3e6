// No code: the twelve tables and their theorem stand in specs.
#![tactic(auto)]
