//! Tests of the lowest crates: texts of bytes, sources and sinks of bytes, sets of processor numbers, and synthetic descriptions. They
//! stand in a crate of their own, so that `byte_text`, `edge_io`, `cpu_set` and `synth_text` are proved once.
#![tactic(auto)]

#[cfg(test)]
mod tests;
