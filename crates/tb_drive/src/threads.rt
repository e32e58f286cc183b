//! The threads of a run: how they are started, and how they are joined.

ghost use Rattle.std.specs.Prelude.{◌≡◌, ◌≤◌, [], ◌∷◌, ◌++◌, List, map, length, vec_len, vec_capacity, OnOk, IfOk, IfErr, IfSome};
ghost use Rattle.tb_submit.specs.clauses.Ends.{origin_of};
ghost use Rattle.tb_drive.specs.declared.drive_fault.DriveFault.TheVariants as fault;
ghost use Rattle.tb_drive.specs.clauses.Seen.{HaveSeen, HaveSeenEnds};
ghost use Rattle.tb_drive.specs.clauses.Tasks.{AreResultsOf, IsResultOf, SubmitterTaskState, task_origin, task_share, task_submitter};
ghost use Rattle.tb_drive.specs.clauses.Threads.{HaveJoined, IsControlResultOf, started_from};

use crate::control_driver::ControlDriver;
use crate::controlling::{ControlPromise, ControlResult, ControlTask};
use crate::drive_fault::DriveFault;
use crate::driver::Driver;
use crate::stop::Stop;
use crate::submitting::{SubmitterPromise, SubmitterResult, SubmitterTask};
use std::alloc::Global;
use std::marker::Model;
use std::snapshot::Snapshot;
use std::sync::Wait;
use std::thread::{PromisedHandle, Scope, Threads};
use std::time::Clock;
use tb_submit::{Control, Ended, Submitter};

/// All senders of a run with their drivers, before their threads are started.
#[derive(Drop)]
pub struct Tasks<D: Driver, C: ControlDriver> {
    submitters: Vec<SubmitterTask<D>>,
    control: ControlTask<C>,
}

impl<D: Driver, C: ControlDriver> Model for Tasks<D, C> {
    ghost use Rattle.tb_drive.specs.clauses.Tasks.{TasksState};

    ghost Value = { TasksState C };

    ghost view = { λ tasks. record { submitters = tasks.submitters.items; control = tasks.control } };
}

/// What all threads returned: the submitters' ends and drivers in the order of the submitters, and what the control's returned.
#[derive(Drop)]
pub struct Joined<D: Driver, C: ControlDriver> {
    pub ends: Vec<Ended>,
    pub drivers: Vec<D>,
    pub control: ControlResult<C>,
}

type SubmitterThread<D> = PromisedHandle<SubmitterResult<D>, SubmitterPromise<D>>;

type ControlThread<C> = PromisedHandle<Option<ControlResult<C>>, ControlPromise<C>>;

/// The threads of the submitters. `ends` and `drivers` are empty, with capacity for what the threads return.
#[derive(Drop)]
struct SubmitterThreads<D: Driver> {
    handles: Vec<SubmitterThread<D>>,
    ends: Vec<Ended>,
    drivers: Vec<D>,
}

/// The threads of all senders, seen as the tasks that they run.
#[derive(Drop)]
pub struct Running<D: Driver, C: ControlDriver> {
    submitters: SubmitterThreads<D>,
    control: ControlThread<C>,
}

impl<D: Driver, C: ControlDriver> Model for Running<D, C> {
    ghost use Rattle.std.specs.Prelude.{◌≡◌, [], map};
    ghost use Rattle.tb_drive.specs.clauses.Tasks.{TasksState};
    ghost use Rattle.tb_drive.specs.clauses.Threads.{started_from};

    ghost Value = { TasksState C };

    ghost view = { λ running. record {
      submitters = map started_from running.submitters.handles.items;
      control = running.control.promise.task.value;
    } };

    ghost invariant = { λ running. (running.submitters.ends.items ≡ []) × (running.submitters.drivers.items ≡ []) };
}

/// Assigns each submitter the driver of its index.
fn assign<D: Driver>(
    alloc: Global,
    submitters: Vec<Submitter>,
    drivers: Vec<D>,
) -> Result<Vec<SubmitterTask<D>>, DriveFault>
    requires number { length drivers.items ≡ length submitters.items }
    requires seen { HaveSeen D.has_seen drivers.items submitters.items }
    ensures own { IfOk result (λ all. map task_origin all.items ≡ map origin_of submitters.items) }
    ensures submitters { IfOk result (λ all. map task_submitter all.items ≡ submitters.items) }
    ensures shares { IfOk result (λ all. map task_share all.items ≡ map D.share drivers.items) }
    ensures memory { IfErr result (λ why. why ≡ fault.NoMemory) }
{
    let mut all = Vec::with_capacity(alloc, submitters.len())?;
    let mut drivers = drivers.into_iter();
    for submitter in submitters {
        let Some(driver) = drivers.next() else {
            unreachable!()
        };
        all.push_reserved(SubmitterTask { submitter, driver });
    }
    Ok(all)
}

impl<D: Driver> SubmitterTask<D> {
    /// Starts the submitter's thread.
    fn start<'s, E, R: Wait + Clock + Sync>(
        self,
        scope: &Scope<'s, E>,
        rt: &'s R,
        alloc: Global,
        stop: &'s Stop,
    ) -> Result<SubmitterThread<D>, DriveFault>
    where
        D: Send + 's,
        ensures { IfOk result (λ thread. thread.promise.task.value ≡ self) }
    {
        let task = self;
        let promise = SubmitterPromise {
            task: Snapshot::of(&task),
        };
        let started = scope.spawn_with(
            promise,
            move || -> SubmitterResult<D>
                ensures { IsResultOf task result }
            { task.drive(rt, alloc, stop) },
        );
        started.ok().ok_or(DriveFault::NoThread)
    }
}

impl<D: Driver> SubmitterThreads<D> {
    /// Returns no threads yet, with capacity for `number` threads and for what they return.
    fn with_capacity(alloc: Global, number: usize) -> Result<SubmitterThreads<D>, DriveFault>
        ensures empty { IfOk result (λ threads. (threads.handles.items ≡ []) × (threads.ends.items ≡ [])
            × (threads.drivers.items ≡ [])) }
        ensures room { IfOk result (λ threads. (vec_len threads.handles ≡ 0) × (number ≤ vec_capacity threads.handles)) }
    {
        let ends = Vec::with_capacity(alloc, number)?;
        let drivers = Vec::with_capacity(alloc, number)?;
        let handles = Vec::with_capacity(alloc, number)?;
        Ok(SubmitterThreads {
            handles,
            ends,
            drivers,
        })
    }

    /// Joins the threads in their order, and returns the submitters' ends and drivers.
    ///
    /// # Errors
    ///
    /// `NoThread`, if the run was given up before a submitter ended.
    fn join<R: Threads>(self, rt: &R) -> Result<(Vec<Ended>, Vec<D>), DriveFault>
        requires { (self.ends.items ≡ []) × (self.drivers.items ≡ []) }
        ensures { IfOk result (λ left. HaveJoined D.share D.has_seen D.has_ended (map started_from self.handles.items)
            left.0.items left.1.items) }
    {
        let SubmitterThreads {
            handles,
            mut ends,
            mut drivers,
        } = self;
        for handle in handles {
            join_one(rt, handle, &mut ends, &mut drivers)?;
        }
        Ok((ends, drivers))
    }
}

/// Starts the submitters' threads in their order; there is room for their handles.
fn start_all<'s, D: Driver + Send + 's, E, R: Wait + Clock + Sync>(
    tasks: Vec<SubmitterTask<D>>,
    handles: &mut Vec<SubmitterThread<D>>,
    scope: &Scope<'s, E>,
    rt: &'s R,
    alloc: Global,
    stop: &'s Stop,
) -> Result<(), DriveFault>
    requires empty { (handles.old.items ≡ []) × (vec_len handles.old ≡ 0) }
    requires room { vec_len tasks ≤ vec_capacity handles.old }
    ensures { OnOk result (map started_from handles.new.items ≡ tasks.items) }
{
    for task in tasks {
        handles.push_reserved(task.start(scope, rt, alloc, stop)?);
    }
    Ok(())
}

impl<C: ControlDriver> ControlTask<C> {
    /// Starts the control's thread.
    fn start<'s, E, R: Wait + Clock + Sync>(
        self,
        scope: &Scope<'s, E>,
        rt: &'s R,
        stop: &'s Stop,
    ) -> Result<ControlThread<C>, DriveFault>
    where
        C: Send + 's,
        ensures { IfOk result (λ thread. thread.promise.task.value ≡ self) }
    {
        let task = self;
        let promise = ControlPromise {
            task: Snapshot::of(&task),
        };
        let started = scope.spawn_with(
            promise,
            move || -> Option<ControlResult<C>>
                ensures { IfSome result (IsControlResultOf C.has_ended task) }
            { task.drive(rt, stop) },
        );
        started.ok().ok_or(DriveFault::NoThread)
    }
}

impl<D: Driver + Send, C: ControlDriver + Send> Tasks<D, C> {
    /// Gives each submitter the driver of its index, and the control its driver. Allocates for the submitters.
    ///
    /// # Errors
    ///
    /// `NoMemory`, if memory ran out.
    pub fn of(
        alloc: Global,
        submitters: Vec<Submitter>,
        drivers: Vec<D>,
        control: Control,
        control_driver: C,
    ) -> Result<Tasks<D, C>, DriveFault>
        requires number { length drivers.items ≡ length submitters.items }
        requires seen { HaveSeen D.has_seen drivers.items submitters.items }
        requires queued { C.has_queued control_driver control_driver [] }
        ensures own { IfOk result (λ tasks. map task_origin tasks.submitters ≡ map origin_of submitters.items) }
        ensures submitters { IfOk result (λ tasks. map task_submitter tasks.submitters ≡ submitters.items) }
        ensures shares { IfOk result (λ tasks. map task_share tasks.submitters ≡ map D.share drivers.items) }
        ensures control { IfOk result (λ tasks. tasks.control ≡ record { control = control; driver = control_driver }) }
        ensures memory { IfErr result (λ why. why ≡ fault.NoMemory) }
    {
        let control = ControlTask {
            control,
            driver: control_driver,
        };
        let submitters = assign(alloc, submitters, drivers)?;
        Ok(Tasks {
            submitters,
            control,
        })
    }

    /// Starts a thread for each sender, once there is memory for all handles and results.
    ///
    /// # Errors
    ///
    /// `NoMemory`, or `NoThread` if a thread can't be started. Threads that run already continue until `stop` is
    /// asked.
    pub fn start<'s, E, R: Wait + Clock + Sync>(
        self,
        scope: &Scope<'s, E>,
        rt: &'s R,
        alloc: Global,
        stop: &'s Stop,
    ) -> Result<Running<D, C>, DriveFault>
    where
        D: 's,
        C: 's,
        ensures { IfOk result (λ running. running ≡ self) }
    {
        let Tasks {
            submitters: tasks,
            control,
        } = self;
        let mut submitters = SubmitterThreads::with_capacity(alloc, tasks.len())?;
        start_all(tasks, &mut submitters.handles, scope, rt, alloc, stop)?;
        let control = control.start(scope, rt, stop)?;
        Ok(Running {
            submitters,
            control,
        })
    }
}

/// Joins a submitter's thread, and appends the end and the driver that it returned.
///
/// # Errors
///
/// `NoThread`, if the run was given up before the submitter ended.
fn join_one<D: Driver, R: Threads>(
    rt: &R,
    handle: SubmitterThread<D>,
    ends: &mut Vec<Ended>,
    drivers: &mut Vec<D>,
) -> Result<(), DriveFault>
    ensures { (tasks : List SubmitterTaskState)
        → HaveJoined D.share D.has_seen D.has_ended tasks ends.old.items drivers.old.items
        → OnOk result (HaveJoined D.share D.has_seen D.has_ended (tasks ++ started_from handle ∷ []) ends.new.items
        drivers.new.items) }
{
    let SubmitterResult { ended, driver } = handle.join(rt);
    let Some(ended) = ended else {
        return Err(DriveFault::NoThread);
    };
    ends.push(ended)?;
    drivers.push(driver)?;
    Ok(())
}

impl<D: Driver, C: ControlDriver> Running<D, C> {
    /// Joins all threads, the submitters' in their order.
    ///
    /// # Errors
    ///
    /// `NoThread`, if the run was given up before a sender ended.
    pub fn join<R: Threads>(self, rt: &R) -> Result<Joined<D, C>, DriveFault>
        ensures submitters { IfOk result (λ joined. AreResultsOf self.submitters joined.ends.items
            (map D.share joined.drivers.items)) }
        ensures number { IfOk result (λ joined. length joined.drivers.items ≡ length joined.ends.items) }
        ensures seen { IfOk result (λ joined. HaveSeenEnds D.has_seen joined.drivers.items joined.ends.items) }
        ensures ended { IfOk result (λ joined. HaveSeenEnds D.has_ended joined.drivers.items joined.ends.items) }
        ensures control { IfOk result (λ joined. IsControlResultOf C.has_ended self.control joined.control) }
    {
        let Running {
            submitters,
            control,
        } = self;
        let (ends, drivers) = submitters.join(rt)?;
        let Some(control) = control.join(rt) else {
            return Err(DriveFault::NoThread);
        };
        Ok(Joined {
            ends,
            drivers,
            control,
        })
    }
}
