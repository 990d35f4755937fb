// What the memory of a pool stands for: theorems alone, there is no code here.
#![tactic(auto)]
