// The dispatch rule of the kernel, tick by tick, and its laws: definitions and theorems, no function.
#![tactic(auto)]
