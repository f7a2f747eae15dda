// A theorem alone: what Rust's `f64::from(n).sqrt() as i32` gives is the whole root of n. It stands in
// specs/RustRoot.antt. No function is needed for it: the port takes the whole root of the crate `whole`.
#![tactic(auto)]
