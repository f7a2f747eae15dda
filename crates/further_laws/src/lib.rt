// Theorems alone: laws of lists, of numbers and of answers that no proof here needs today, and that a reader may.
#![tactic(auto)]
