// Theorems that no code needs: they stand in specs/.
#![tactic(auto)]
