#![tactic(auto)]

// Theory alone: the starred examples of 01, runs that show each shortcut, and demand 3 put to use.
