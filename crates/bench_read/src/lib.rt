// What an answer of std's `read` means for the file, defined in bench_spec/specs/Reading.antt. The loop that reads is
// in `bench_files`.
#![tactic(auto)]

ghost use Rattle.std.specs.Prelude.{◌-◌, ◌≤◌, ◌≡◌};
ghost use Rattle.bench_spec.specs.Reading.{Moved, after_read};

use std::io;
use std::ops::ControlFlow;

// What an answer of `read` means when `end` of the `long` lent bytes were filled before. A read that fails leaves
// nothing to rely on: what was read until then may be only a part of the file.
pub fn after(end: usize, long: usize, got: io::Result<usize>) -> ControlFlow<Option<usize>, usize>
    requires { (end ≤ long) × Moved (long - end) got }
    ensures { result ≡ after_read end long got }
{
    match got {
        Err(_) => ControlFlow::Break(None),
        Ok(0) => ControlFlow::Break(Some(end)),
        Ok(more) if end + more == long => ControlFlow::Break(Some(long)),
        Ok(more) => ControlFlow::Continue(end + more),
    }
}
