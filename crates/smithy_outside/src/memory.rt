//! Files, a source and a sink in memory, for tests: they tell what they hold, and fail at the calls
//! that they are told to fail at.
ghost use Rattle.std.specs.Prelude.{◌≡◌, ◌↔◌, Contains, IsTrue};
ghost use Rattle.smithy_outside.specs.Outside.{counted};

mod files;
mod sink;
mod source;
mod steady_sink;
mod steady_source;

pub use files::MemoryFiles;
pub use sink::MemorySink;
pub use source::MemorySource;
pub use steady_sink::SteadySink;
pub use steady_source::SteadySource;

// Counts a call, and says whether it is one that is to fail.
fn is_failing_call(calls: &mut u64, fail: &[u64]) -> bool
    ensures counted { calls.new ≡ counted calls.old }
    ensures fails { IsTrue result ↔ Contains fail.now calls.new }
{
    *calls = calls.saturating_add(1);
    fail.contains(calls)
}
