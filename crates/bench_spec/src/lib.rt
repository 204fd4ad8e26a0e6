// What the program tells of its two files, and the line that it prints. specs/ defines both, and proofs/Promises.antt
// has what is promised of them; the code is in the crates `bench_read`, `bench_line` and `bench_files`.
#![tactic(auto)]
