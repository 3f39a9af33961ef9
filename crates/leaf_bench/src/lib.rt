// The leaves and the functions of det.rs under C names, for compare/bench to call and time beside the Rust's own.
#![tactic(auto)]

mod casts;
mod floats;
mod kernels;
