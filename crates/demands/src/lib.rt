// The demands of the customer, proved: each statement stands in specs/, its proof in proofs/ under the same name.
#![tactic(auto)]
