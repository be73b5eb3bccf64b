#![tactic(auto)]

// No code: the contracts of `calls` as relations (specs/), and what they settle (proofs/).
