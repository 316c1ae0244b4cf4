// The test that gives each row of a plan its response, and its laws: definitions and theorems, no function.
#![tactic(auto)]
