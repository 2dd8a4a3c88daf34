//! The command `gen`: a policy, a machine and a client that are made here by two numbers, and the client's run of the
//! policy on the machine.
//!
//! The first number says how many ORs the policy has: each has two branches, so that the policy has two to the power
//! of that many paths. The bits of the second number say in which order the branches of each stand.
//! `generated_policy`, `generated_setup` and `generated_run` are what is made here, and `generate_step` is what is
//! printed: the numbers, how many paths the policy has and its digest, then the first line of the run, how many
//! commands were executed, and the last two lines. What the run does on the machine is that of tpol_perform. The layer
//! above takes `perform_generated`.
//!
//! Where a call fails beside a large value, that is let go by `drop`, as in tpol_perform.
#![tactic(auto)]

mod first_run;
mod generate;
mod generated;

pub use generate::perform_generated;
