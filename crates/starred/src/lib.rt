// The starred figures of document 01, proved: the table stands in specs/, its proof in proofs/.
#![tactic(auto)]
