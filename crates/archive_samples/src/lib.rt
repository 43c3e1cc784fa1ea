// Recordings and readings that meet what the claims of `archive` ask for. There is nothing to call: specs/ has their data, proofs/ runs them.
#![tactic(auto)]
