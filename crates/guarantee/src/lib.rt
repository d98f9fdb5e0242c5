#![tactic(auto)]

// No code: the plain book of demand 3, lists of calls with power cuts, and the one theorem about them, over what the
// store states.
