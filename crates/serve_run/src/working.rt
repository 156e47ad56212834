//! Tasks that are done beside the work of others.
ghost use Rattle.std.specs.Prelude.{IfSome};

use std::thread::{Threads, join};

/// Something that is done once, in a thread of its own. Each `&mut` that it was lent comes back in its output, since a join says
/// nothing of what was written through a reference.
pub trait Task {
    /// What it hands back.
    type Output;

    /// What has to hold for it to be done.
    ghost can_run: { Self → Type 0 };

    /// What it has done, by what it was and its output.
    ghost leaves: { Self → Self.Output → Type 0 };

    /// Does it, to its end.
    fn run(self) -> Self::Output
        requires { can_run self }
        ensures { leaves self result };
}

/// Has the task done in a thread of its own beside the work of others, which is done in this one. Where no thread can be made the task
/// comes last. It answers the output of both.
pub(crate) fn work_beside<
    S: Task<Output = A> + Send + Drop,
    A: Send,
    W: FnOnce() -> C,
    C,
    R: Threads,
>(rt: &R, task: S, work: W) -> (A, C)
    requires task { S.can_run task }
    requires work { W.pre work }

    ensures task { S.leaves task result.0 }
    ensures work { W.post work result.1 }
{
    join(
        rt,
        move || -> A
            requires { S.can_run task }
            ensures { S.leaves task result }
        { task.run() },
        work,
    )
}

/// Has two tasks done beside the work of others, each in a thread of its own, as by [`work_beside`]. Where no thread can be made the
/// other one, which hands nothing back, comes last of all.
pub(crate) fn work_beside_both<
    S: Task<Output = A> + Send + Drop,
    A: Send,
    T: Task<Output = ()> + Send + Drop,
    W: FnOnce() -> C,
    C,
    R: Threads,
>(rt: &R, task: S, other: T, work: W) -> (A, C)
    requires task { S.can_run task }
    requires other { T.can_run other }
    requires work { W.pre work }

    ensures task { S.leaves task result.0 }
    ensures work { W.post work result.1 }
{
    let ((), worked) = join(
        rt,
        move || -> ()
            requires { T.can_run other }
        { other.run() },
        move || -> (A, C)
            requires { S.can_run task × W.pre work }
            ensures task { S.leaves task result.0 }
            ensures work { W.post work result.1 }
        { work_beside(rt, task, work) },
    );
    worked
}

/// Has the task done beside the work of others as by [`work_beside`], and the other one too, where there is one.
pub(crate) fn work_beside_any<
    S: Task<Output = A> + Send + Drop,
    A: Send,
    T: Task<Output = ()> + Send + Drop,
    W: FnOnce() -> C,
    C,
    R: Threads,
>(rt: &R, task: S, other: Option<T>, work: W) -> (A, C)
    requires task { S.can_run task }
    requires other { IfSome other T.can_run }
    requires work { W.pre work }

    ensures task { S.leaves task result.0 }
    ensures work { W.post work result.1 }
{
    match other {
        Some(other) => work_beside_both(rt, task, other, work),
        None => work_beside(rt, task, work),
    }
}
