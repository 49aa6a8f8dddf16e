// A judge of replies: definitions and theorems alone.
#![tactic(auto)]
