// The bench tool on a card whose root is its own left child: node 2 is refused.
// (A program of its own, since a program runs in one folder with one pair of files.)
#![tactic(auto)]

fn main(rt: HostRuntime) {
    bench_files::run(&rt);
}
