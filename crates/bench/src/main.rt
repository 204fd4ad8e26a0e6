// The bench tool: judges the log in the file `log` by the chart card in the file `chart`. What it tells and prints is
// defined in bench_spec/specs/.
#![tactic(auto)]

fn main(rt: HostRuntime) {
    bench_files::run(&rt);
}
