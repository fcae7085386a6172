// Tests of the fleet layer: worked units, edges.
#![tactic(auto)]

mod days;
