// How the plan is chosen, and that the choice is complete: definitions and theorems, no function.
#![tactic(auto)]
