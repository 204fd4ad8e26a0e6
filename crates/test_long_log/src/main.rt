// The bench tool on a log of 129 actions, one more than a log may have.
// (A program of its own, since a program runs in one folder with one pair of files.)
#![tactic(auto)]

fn main(rt: HostRuntime) {
    bench_files::run(&rt);
}
