// The structs of the C interface, and which one each answer becomes.
//
// In each struct but `BeginningResult`, which has no refusal, stand the refusal's number and place, both 0 where the
// call does not refuse; then the call's values, all 0 where it does: numbers, since C has no Result, and a struct for
// each call, since C has no generics.
#![tactic(auto)]

pub mod accept_result;
pub mod beginning_result;
pub mod canonical_result;
pub mod order_result;
pub mod races_result;
pub mod runs_result;
pub mod table_result;
