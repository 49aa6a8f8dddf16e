// A session on bytes, computed by the checker: definitions and proofs alone.
#![tactic(auto)]
