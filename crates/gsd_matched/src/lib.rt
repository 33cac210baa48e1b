#![tactic(auto)]

// A plan that matches an append makes its stores: theorems only, in proofs.
