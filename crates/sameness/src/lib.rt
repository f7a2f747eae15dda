// Theorems alone: that each entry's contract leaves no choice, in specs/Sameness.antt.
#![tactic(auto)]
