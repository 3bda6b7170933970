// The library's face: the public calls, and its version, exported to C.
#![tactic(auto)]

mod calls;
mod version;
