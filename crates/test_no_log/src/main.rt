// The bench tool where the file `log` is missing.
// (A program of its own, since a program runs in one folder with one pair of files.)
#![tactic(auto)]

fn main(rt: HostRuntime) {
    bench_files::run(&rt);
}
