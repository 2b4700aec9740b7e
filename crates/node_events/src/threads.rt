//! Jobs of workers, each on a thread of its own.
use byte_text::NoMemory;
use std::alloc::AllocError;
use std::sync::Wait;
use std::thread;
use std::thread::{JoinHandle, Threads};
use thiserror::Error;

/// Why not all workers were started. Those that were have run to their end.
#[derive(Clone, Copy, Debug, PartialEq, Eq, Error)]
pub enum StartFault {
    /// There was no memory.
    #[error("no memory")]
    NoMemory,
    /// The system gave no thread.
    #[error("no thread")]
    NoThread,
}

impl From<AllocError> for StartFault {
    fn from(_: AllocError) -> StartFault {
        StartFault::NoMemory
    }
}

/// Calls `f` for each job, with its place in the list, on a thread of its own, joins the threads, and answers what the calls
/// gave, in the list's order. What was started runs to its end before a refusal is answered.
///
/// The parts of a job are type parameters, since a tuple of what they are to its caller isn't found to be Send.
pub fn each_in_a_thread<R, A, B, X, F>(
    rt: &R,
    jobs: Vec<(A, B)>,
    f: &F,
) -> Result<Vec<X>, StartFault>
where
    R: Threads + Wait + AllocGlobal + Sync,
    A: Send + Drop,
    B: Send + Drop,
    X: Send + Drop,
    F: Fn(usize, A, B) -> Result<X, NoMemory> + Sync,
    requires { F.IsAlwaysCallable f.now }
{
    each_whole_in_a_thread(
        rt,
        jobs,
        &|number: usize, job: (A, B)| -> Result<X, NoMemory>
            requires { F.IsAlwaysCallable f.now }
        { f(number, job.0, job.1) },
    )
}

// Calls `f` for each job, whole, as [`each_in_a_thread`] does.
fn each_whole_in_a_thread<R, J, X, F>(rt: &R, jobs: Vec<J>, f: &F) -> Result<Vec<X>, StartFault>
where
    R: Threads + Wait + AllocGlobal + Sync,
    J: Send + Drop,
    X: Send + Drop,
    F: Fn(usize, J) -> Result<X, NoMemory> + Sync,
    requires { F.IsAlwaysCallable f.now }
{
    let alloc = rt.alloc();
    let mut handles = Vec::with_capacity(alloc, jobs.len())?;
    let ends = Vec::with_capacity(alloc, jobs.len())?;
    thread::scope(
        thread::scope_env(),
        rt,
        move |scope| -> Result<Vec<X>, StartFault>
            requires { F.IsAlwaysCallable f.now }
        {
            let mut fault = None;
            for (number, job) in jobs.into_iter().enumerate() {
                let run = move || -> Result<X, NoMemory>
                    requires { F.IsAlwaysCallable f.now }
                { f(number, job) };
                let Ok(handle) = scope.spawn(run) else {
                    fault = Some(StartFault::NoThread);
                    break;
                };
                if handles.push(handle).is_err() {
                    fault = Some(StartFault::NoMemory);
                    break;
                }
            }
            let ends = join_all(rt, handles, ends)?;
            match fault {
                Some(fault) => Err(fault),
                None => Ok(ends),
            }
        },
    )
}

// Joins the threads, and puts their ends behind those in the list.
fn join_all<R: Threads, X: Drop>(
    rt: &R,
    handles: Vec<JoinHandle<Result<X, NoMemory>>>,
    mut ends: Vec<X>,
) -> Result<Vec<X>, StartFault> {
    let mut fault = None;
    for handle in handles {
        if keep_end(&mut ends, handle.join(rt)).is_err() {
            fault = Some(StartFault::NoMemory);
        }
    }
    match fault {
        Some(fault) => Err(fault),
        None => Ok(ends),
    }
}

// Puts the end of a job that had the memory to begin into the list.
fn keep_end<X: Drop>(ends: &mut Vec<X>, end: Result<X, NoMemory>) -> Result<(), NoMemory> {
    let end = end?;
    ends.push(end).map_err(AllocError::from)?;
    Ok(())
}
