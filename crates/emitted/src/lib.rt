#![tactic(auto)]

// What rows emit, and what is read in it again; the cleaned copy: as theorems about the rules, no function.
