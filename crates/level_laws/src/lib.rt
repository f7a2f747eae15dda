// Theorems alone, about the planes of a level: that they lie apart, and that planning, evaluating and finishing take them. See specs/.
#![tactic(auto)]
