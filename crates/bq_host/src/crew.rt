//! A crew: members that are each served by a thread of their own. The threads begin together or not
//! at all.
ghost use Rattle.std.specs.Prelude.{◌≡◌, ◌≤◌, IfOk, IfSome, IsErrOf, [], map, vec_capacity, vec_len};
ghost use Rattle.std.specs.List.{AllZip};

use crate::fault::RunFault;
use crate::start::Start;
use bq_job::NoMemory;
use std::alloc::Global;
use std::snapshot::Snapshot;
use std::sync::Wait;
use std::thread;
use std::thread::{Promise, PromisedHandle, Scope, Threads};

/// What one thread of a crew does. It returns a `B` when it has ended.
pub trait Member<B> {
    /// Relates the member, before its thread begins, to what it returns.
    ghost gives: { Self → B → Type 0 };

    /// Works until the member has ended.
    fn serve<R: Threads + Wait>(self, rt: &R) -> B
        ensures gives { gives self result };
}

// The promise of a member's thread: if it began, it returns what the member gives.
#[derive(Drop)]
struct MemberPromise<M> {
    member: Snapshot<M>,
}

impl<B, M: Member<B>> Promise<Option<B>> for MemberPromise<M> {
    ghost kept_by = { λ promise back. IfSome back (M.gives promise.member.value) };
}

type MemberThread<M, B> = PromisedHandle<Option<B>, MemberPromise<M>>;

// Members before their threads start, with room for the threads and for what they return.
#[derive(Drop)]
struct Crew<M: Member<B>, B> {
    members: Vec<M, Global>,
    threads: Vec<MemberThread<M, B>, Global>,
    backs: Vec<B, Global>,
    ghost no_threads: { threads.items ≡ [] },
    ghost no_backs: { backs.items ≡ [] },
    ghost for_threads: { vec_len members ≤ vec_capacity threads },
    ghost for_backs: { vec_len members ≤ vec_capacity backs },
}

impl<M: Member<B> + Drop, B: Drop> Crew<M, B> {
    fn new(alloc: Global, members: Vec<M, Global>) -> Result<Crew<M, B>, NoMemory>
        ensures members { IfOk result (λ crew. crew.members ≡ members) }
    {
        let Ok(threads) = Vec::with_capacity(alloc, members.len()) else {
            return Err(NoMemory);
        };
        let Ok(backs) = Vec::with_capacity(alloc, members.len()) else {
            return Err(NoMemory);
        };
        Ok(Crew {
            members,
            threads,
            backs,
        })
    }
}

// The threads of all members, with room for what they return.
#[derive(Drop)]
struct AtWork<M: Member<B>, B> {
    threads: Vec<MemberThread<M, B>, Global>,
    backs: Vec<B, Global>,
    ghost no_backs: { backs.items ≡ [] },
    ghost for_backs: { vec_len threads ≤ vec_capacity backs },
}

// Serves the member if all threads were started. Returns `None` if one was refused.
fn serve_if_begun<R: Threads + Wait, M: Member<B> + Drop, B: Drop>(
    rt: &R,
    start: &Start,
    member: M,
) -> Option<B>
    ensures { IfSome result (M.gives member) }
{
    if start.wait(rt) {
        Some(member.serve(rt))
    } else {
        None
    }
}

// Starts a thread for this member, if possible.
fn start_member<
    's,
    E,
    R: Threads + Wait + Sync,
    M: Member<B> + Drop + Send + 's,
    B: Drop + Send + 's,
>(scope: &'s Scope<'s, E>, rt: &'s R, start: &'s Start, member: M) -> Option<MemberThread<M, B>>
    ensures { IfSome result (λ thread. thread.promise.member.value ≡ member) }
{
    let promise = MemberPromise {
        member: Snapshot::of(&member),
    };
    scope
        .spawn_with(promise, move || serve_if_begun(rt, start, member))
        .ok()
}

// Starts a thread for each member, and signals to all threads at this start whether they begin.
// Returns `None` if a thread could not be started. The scope waits for those that were.
fn start_crew<
    's,
    E,
    R: Threads + Wait + Sync,
    M: Member<B> + Drop + Send + 's,
    B: Drop + Send + 's,
>(scope: &'s Scope<'s, E>, rt: &'s R, start: &'s Start, crew: Crew<M, B>) -> Option<AtWork<M, B>>
    ensures { IfSome result (λ work. map (λ t. t.promise.member.value) work.threads.items ≡ crew.members.items) }
{
    let Crew {
        members,
        mut threads,
        backs,
    } = crew;
    for member in members {
        let Some(thread) = start_member(scope, rt, start, member) else {
            start.tell(rt, false);
            return None;
        };
        threads.push_reserved(thread);
    }
    start.tell(rt, true);
    Some(AtWork { threads, backs })
}

// Waits for all threads, and returns what they returned, in the order of the members.
fn join_crew<R: Threads, M: Member<B> + Drop, B: Drop>(
    rt: &R,
    work: AtWork<M, B>,
) -> Option<Vec<B, Global>>
    ensures { IfSome result
        (λ backs. AllZip M.gives (map (λ t. t.promise.member.value) work.threads.items) backs.items) }
{
    let AtWork { threads, mut backs } = work;
    for thread in threads {
        let back = thread.join(rt)?;
        backs.push_reserved(back);
    }
    Some(backs)
}

// Serves the crew in a scope of its own, and the lead in this thread.
fn serve_at<
    R: Threads + Wait + Sync,
    M: Member<B> + Drop + Send,
    B: Drop + Send,
    L: Member<T> + Drop,
    T: Drop,
>(rt: &R, start: &Start, crew: Crew<M, B>, lead: L) -> Option<(Vec<B, Global>, T)>
    ensures crew { IfSome result (λ r. AllZip M.gives crew.members.items r.0.items) }
    ensures lead { IfSome result (λ r. L.gives lead r.1) }
{
    thread::scope(
        thread::scope_env(),
        rt,
        move |scope| -> Option<(Vec<B, Global>, T)>
            ensures crew { IfSome result (λ r. AllZip M.gives crew.members.items r.0.items) }
            ensures lead { IfSome result (λ r. L.gives lead r.1) }
        {
            let work = start_crew(scope, rt, start, crew)?;
            let led = lead.serve(rt);
            Some((join_crew(rt, work)?, led))
        },
    )
}

/// Serves each member in a thread of its own, and the lead in the calling thread, after all threads
/// were started. Returns what the members gave, in their order, and what the lead gave.
///
/// The error is `NoMemory` if an allocation failed, or `ThreadRefused` if a thread could not be
/// started. After an error nothing was served.
pub fn serve_crew<
    R: Threads + Wait + Sync,
    M: Member<B> + Drop + Send,
    B: Drop + Send,
    L: Member<T> + Drop,
    T: Drop,
>(rt: &R, alloc: Global, members: Vec<M, Global>, lead: L) -> Result<(Vec<B, Global>, T), RunFault>
    ensures crew { IfOk result (λ r. AllZip M.gives members.items r.0.items) }
    ensures lead { IfOk result (λ r. L.gives lead r.1) }
    ensures fault { IsErrOf result RunFault.BadConfiguration → ⊥ }
{
    let Ok(crew) = Crew::new(alloc, members) else {
        return Err(RunFault::NoMemory);
    };
    let start = Start::new();
    serve_at(rt, &start, crew, lead).ok_or(RunFault::ThreadRefused)
}

/// Does the same with one more thread, for a member of another kind. It starts first and is joined
/// last.
pub fn serve_crew_beside<
    R: Threads + Wait + Sync,
    O: Member<X> + Drop + Send,
    X: Drop + Send,
    M: Member<B> + Drop + Send,
    B: Drop + Send,
    L: Member<T> + Drop,
    T: Drop,
>(
    rt: &R,
    alloc: Global,
    other: O,
    members: Vec<M, Global>,
    lead: L,
) -> Result<(X, Vec<B, Global>, T), RunFault>
    ensures other { IfOk result (λ r. O.gives other r.0) }
    ensures crew { IfOk result (λ r. AllZip M.gives members.items r.1.items) }
    ensures lead { IfOk result (λ r. L.gives lead r.2) }
    ensures fault { IsErrOf result RunFault.BadConfiguration → ⊥ }
{
    let Ok(crew) = Crew::new(alloc, members) else {
        return Err(RunFault::NoMemory);
    };
    let start = &Start::new();
    thread::scope(
        thread::scope_env(),
        rt,
        move |scope| -> Option<(X, Vec<B, Global>, T)>
            ensures other { IfSome result (λ r. O.gives other r.0) }
            ensures crew { IfSome result (λ r. AllZip M.gives crew.members.items r.1.items) }
            ensures lead { IfSome result (λ r. L.gives lead r.2) }
        {
            let thread = start_member(scope, rt, start, other)?;
            let (backs, led) = serve_at(rt, start, crew, lead)?;
            Some((thread.join(rt)?, backs, led))
        },
    )
    .ok_or(RunFault::ThreadRefused)
}
