// Stretches, the update and the redraw as definitions, and demand 3 over any chip that keeps the laws: no code.

#![tactic(auto)]
