// Theorems alone, about the records that planning makes: see specs/.
#![tactic(auto)]
