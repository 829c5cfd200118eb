// A capture's answers and the demands on them: definitions (specs/) and theorems (proofs/), no function.
#![tactic(auto)]
