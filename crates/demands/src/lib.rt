// The customer's sentences about the calls are theorems (proofs/). The code here ties them to the calls: each function
// makes one call, and its `ensures` is the promise that the theorems speak of. Its proof has nothing but the call's own
// contract to go by, so that a contract which said less would leave it unproved.
#![tactic(auto)]

mod calls;
mod functions;
