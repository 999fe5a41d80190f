// The lines of a policy file, cut into fields and read into what each says.
#![tactic(auto)]

pub mod line;
pub mod text;
pub mod word;
