//! Calls at places that follow one another, one after another.
ghost use Rattle.std.specs.Prelude.{◌≡◌, ◌+◌, ◌<◌, ◌^◌, length};
ghost use Rattle.std.specs.Fork.{AcceptsAt, ChangesAt};
ghost use Rattle.beside_calls.specs.Runs.{AreReady, AreDone};

/// Calls `f(first + at, &mut run[at])` at each place, one after another.
pub(crate) fn call_run<T, F: Fn(usize, &mut T)>(f: &F, first: usize, run: &mut [T])
    requires room { first + length run.old < 2 ^ 64 }
    requires ready { AreReady F.Fn f.now first run.old }
    ensures { AreDone F.Fn f.now first run.old run.new }
{
    for at in 0..run.len() {
        call_one(f, first + at, &mut run[at]);
    }
}

fn call_one<T, F: Fn(usize, &mut T)>(f: &F, at: usize, item: &mut T)
    requires { AcceptsAt F.Fn f.now at item.old }
    ensures { ChangesAt F.Fn f.now at item.old item.new }
{
    f(at, item);
}
