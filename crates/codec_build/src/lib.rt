// Reports and requests built as frames. Any values are built or refused.
//
//     mux       the multiplexers
//     listed    refusal 3: which reports and requests a device kind has
//     fit       refusal 6: which values fit their fields
//     body      the bytes
//     building  a frame built of either
#![tactic(auto)]

mod body;
pub mod building;
mod fit;
mod listed;
mod mux;
