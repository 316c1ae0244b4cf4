// How long the kernel's jobs take, against the response of their row: theorems only.
#![tactic(auto)]
