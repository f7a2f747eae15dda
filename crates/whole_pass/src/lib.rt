// Theorems alone, about planning, evaluating and finishing one behind the other: see specs/.
#![tactic(auto)]
