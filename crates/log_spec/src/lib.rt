// What the bytes of a log mean: specs/Bytes.antt says which actions they are, specs/Refusing.antt what refuses them
// (01, "The log"). The code is in the crate `log_bytes`.
#![tactic(auto)]
