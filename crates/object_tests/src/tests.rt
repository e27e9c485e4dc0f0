mod command;
mod streams;

use outside::Fails;
use std::alloc::Global;
use std::fmt::Debug;
use std::process::Abort;

// What a call gives that takes memory. A test may end where there is none, and then no value that is alive has to be
// dropped, as it has where `?` returns.
fn made<T, E: Debug + Drop>(rt: &impl Abort, given: Result<T, E>) -> T {
    given.expect(rt, "memory")
}

// The call of this number fails.
fn failing(rt: &impl Abort, alloc: Global, number: u32) -> Fails {
    let mut fails = Fails::new(alloc);
    made(rt, fails.push(number));
    fails
}
