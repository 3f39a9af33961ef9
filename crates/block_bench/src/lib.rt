// The block kernels under C names, for compare/bench to call and time beside the Rust's own. A record's state is read from its cells
// and registers and stored back there, as a fill does it. Slices come first, and each is a pointer and a length to the caller. C lends
// slices and numbers alone: so a state goes in and out a number at a time, what belongs together comes as parameters beside each other, a
// count stands beside its slice, a kind or an option is its number, and each function has the lengths that it reads in its contract.
#![tactic(auto)]

mod processors;
mod sources;
mod values;
