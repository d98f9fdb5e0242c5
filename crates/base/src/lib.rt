#![tactic(auto)]

// No code: definitions and laws on lists and numbers that several crates share.
