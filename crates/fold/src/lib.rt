// Batches folded into the opener's table: definitions and theorems alone.
#![tactic(auto)]
