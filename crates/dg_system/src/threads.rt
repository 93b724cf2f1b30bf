//! Two closures called side by side, of which each changes what it was lent.
ghost use Rattle.std.specs.Prelude.{◌≡◌, MatchResult};

use crate::shortage::Shortage;
use std::snapshot::Snapshot;
use std::sync::Wait;
use std::sync::atomic::{AtomicBool, Ordering};
use std::thread;
use std::thread::{Promise, Threads};

/// Calls f in a new thread and g in this one, and returns once both did.
///
/// Refused with `Spawn` if no thread could be started, and with nothing else; then neither was called.
pub fn in_parallel<R: Threads + Wait, F: FnMut() -> A + Send, G: FnMut() -> B, A: Send + Drop, B>(
    rt: &R,
    f: &mut F,
    g: &mut G,
) -> Result<(A, B), Shortage>
    requires { F.pre f.old × G.pre g.old }
    ensures { MatchResult result
        (λ r. F.step f.old r.0 f.new × G.step g.old r.1 g.new)
        (λ shortage. (shortage ≡ Shortage.Spawn) × (f.new ≡ f.old) × (g.new ≡ g.old)) }
{
    match run_both(rt, BorrowedTask { f }, BorrowedTask { f: g }) {
        Ok(((f, a), (g, b))) => {
            end_borrow(f);
            end_borrow(g);
            Ok((a, b))
        }
        Err((BorrowedTask { f }, BorrowedTask { f: g })) => {
            end_borrow(f);
            end_borrow(g);
            Err(Shortage::Spawn)
        }
    }
}

/// A closure to run once, in a thread. It has a trait of our own, because of a plain closure the prover would not see what
/// it borrows.
trait Task {
    type Output;

    ghost can_run: { Self → Type 0 };

    ghost run_gives: { Self → Self.Output → Type 0 };

    fn run(self) -> Self::Output
        requires { can_run self }
        ensures { run_gives self result };
}

#[derive(Drop)]
struct BorrowedTask<'a, F> {
    f: &'a mut F,
}

impl<'a, F: FnMut() -> A, A> Task for BorrowedTask<'a, F> {
    type Output = (&'a mut F, A);

    ghost can_run = { λ t. F.pre t.f.now };

    ghost run_gives = { λ t r. (r.0.ghost_name ≡ t.f.ghost_name) × F.step t.f.now r.1 r.0.now };

    fn run(self) -> (&'a mut F, A) {
        let BorrowedTask { f } = self;
        let a = f();
        (f, a)
    }
}

/// What the thread gives: what its task gives, or the task itself.
#[derive(Drop)]
struct TaskResult<S> {
    task: Snapshot<S>,
}

impl<A, S: Task<Output = A>> Promise<Result<A, S>> for TaskResult<S> {
    ghost kept_by = { λ p r. MatchResult r (λ a. S.run_gives p.task.value a) (λ s. s ≡ p.task.value) };
}

/// Runs s in a new thread and t in this one. If no thread could be started, both come back. A closure that was not started
/// can be called all the same: once `stop` is set it gives back its task.
fn run_both<
    R: Threads + Wait,
    S: Task<Output = A> + Send + Drop,
    T: Task<Output = B> + Drop,
    A: Send + Drop,
    B,
>(rt: &R, s: S, t: T) -> Result<(A, B), (S, T)>
    requires { S.can_run s × T.can_run t }
    ensures { MatchResult result (λ r. S.run_gives s r.0 × T.run_gives t r.1) (λ b. b ≡ (s, t)) }
{
    let flag = AtomicBool::new(false);
    let stop = &flag;
    let given = TaskResult {
        task: Snapshot::of(&s),
    };
    thread::scope(
        thread::scope_env(),
        rt,
        |scope| -> Result<(A, B), (S, T)>
            requires { S.can_run s × T.can_run t × (given.task.value ≡ s) }
            ensures { MatchResult result (λ r. S.run_gives s r.0 × T.run_gives t r.1)
                (λ b. b ≡ (s, t)) }
        {
            let work = move || -> Result<A, S>
                requires { S.can_run s }
                ensures { MatchResult result (λ a. S.run_gives s a) (λ b. b ≡ s) }
            {
                if stop.load(Ordering::SeqCst) {
                    Err(s)
                } else {
                    Ok(s.run())
                }
            };
            match scope.spawn_with(given, work) {
                Ok(handle) => {
                    let b = t.run();
                    match handle.join(rt) {
                        Ok(a) => Ok((a, b)),
                        // This never comes, since `stop` is not set.
                        Err(s) => Ok((s.run(), b)),
                    }
                }
                Err(back) => {
                    stop.store(true, Ordering::SeqCst);
                    match (back.value)() {
                        // This never comes, since `stop` is set.
                        Ok(a) => Ok((a, t.run())),
                        Err(s) => Err((s, t)),
                    }
                }
            }
        },
    )
}

/// Does nothing. This use of a reference that came back ties it, for the borrow checker, to the parameter that lent it.
fn end_borrow<T>(x: &mut T)
    ensures { x.new ≡ x.old }
{}
