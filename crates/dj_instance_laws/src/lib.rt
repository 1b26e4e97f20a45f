//! Laws of what can be said of broken rules and of faults in the bytes of a file.
#![tactic(auto)]

mod laws;

pub use laws::{java_faults_are_said, java_instances_are_said, line_instances_are_said};
