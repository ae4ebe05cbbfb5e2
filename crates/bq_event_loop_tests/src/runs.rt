//! Runs of doors in memory.
ghost use Rattle.std.specs.Prelude.{IfOk};
ghost use Rattle.bq_event_loop.specs.Known.{KnowsAll};
ghost use Rattle.bq_event_loop.specs.SoFar.{beginning};

use crate::nobody::Nobody;
use crate::order::RuleOrder;
use crate::script_door::{NewDoors, ScriptDoor, doors_of};
use crate::series::Series;
use crate::setting::{Setting, at_first};
use crate::together::Together;
use bq_core::Core;
use bq_core_api::Config;
use bq_event_loop::{EventLoopRun, Order, RunRefused, Turns, TurnsFault, run_turns};
use bq_host::RunFault;
use bq_job::USUAL_BODY;
use bq_line::Door;
use bq_line::clock::ScriptClock;
use bq_line::control_line::ControlReader;
use bq_scenes::clients::clock;
use bq_scenes::control::{Control, Pieces, control};
use bq_scenes::settings::config;
use bq_scenes::table::{Run, Table};
use std::alloc::Global;
use std::io::BufReader;

type Ran<'t> = EventLoopRun<
    <ScriptDoor<'t> as Door>::Line,
    ScriptDoor<'t>,
    ScriptClock,
    Control,
    Core,
>;

// Returns true if the connections of all doors are left as they have to be.
fn are_left_so(doors: Vec<ScriptDoor<'_>, Global>, setting: &Setting) -> bool {
    let mut are_right = true;
    let mut at: usize = 0;
    for door in doors {
        if !door.is_left_so(at_first(at, setting.cut)) {
            are_right = false;
        }
        at = at.saturating_add(1);
    }
    are_right
}

// Returns the turns of a run by the rule of the setting, or this fault.
fn turns_of<'t>(
    setting: &Setting,
    seats: u16,
    fault: Option<TurnsFault>,
    all: &'t Together,
) -> Result<RuleOrder<'t>, TurnsFault> {
    match fault {
        None => Ok(RuleOrder::new(setting.rule, setting.reads, usize::from(seats), all)),
        Some(fault) => Err(fault),
    }
}

// Returns true if a run has ended, with the results that the table says at its connections.
fn is_left_so(
    ran: Result<Ran<'_>, RunRefused<ScriptDoor<'_>>>,
    setting: &Setting,
) -> Result<bool, RunFault> {
    match ran {
        Ok(ran) => {
            let EventLoopRun {
                seats,
                doors,
                clock,
                control,
                core,
                is_over,
            } = ran;
            drop(seats);
            drop(clock);
            drop(control);
            drop(core);
            Ok(is_over && are_left_so(doors, setting))
        }
        Err(refused) => {
            let fault = refused.fault;
            drop(refused);
            Err(fault)
        }
    }
}

/// What a run works on, besides its turns.
#[derive(Drop)]
struct Scene<'t> {
    doors: NewDoors<'t>,
    clock: ScriptClock,
    control: Control,
}

// Returns what a run in a table works on, or the error if an allocation fails.
fn scene_of<'t>(
    alloc: Global,
    table: &Table,
    run: Run,
    setting: &Setting,
    all: &'t Together,
) -> Result<Scene<'t>, RunFault> {
    let Ok(clock) = clock(alloc, setting.readings) else {
        return Err(RunFault::NoMemory);
    };
    match control(alloc, setting.control) {
        Ok(control) => Ok(Scene {
            doors: doors_of(alloc, table, run, setting, all),
            clock,
            control,
        }),
        Err(_) => {
            drop(clock);
            Err(RunFault::NoMemory)
        }
    }
}

// Runs these doors by these turns. Returns true if this leaves the results at their connections that
// the table says. Each call of `run_turns` is dear to prove, so there is one.
fn ran_by<T: Turns + Drop>(
    alloc: Global,
    config: Config,
    scene: Scene<'_>,
    setting: &Setting,
    turns: Result<T, TurnsFault>,
    all: &Together,
) -> Result<bool, RunFault>
    requires of_run { T.is_of (beginning config scene.doors.all.items scene.clock
        (⟦<BufReader<Pieces> as ControlReader>⟧.remaining scene.control)
        (⟦<BufReader<Pieces> as ControlReader>⟧.may_fail scene.control)) }
    requires knows { IfOk turns (λ t. KnowsAll config.seats (T.seats t) (T.listed t) (T.tries t)) }
{
    let Scene {
        doors,
        clock,
        control,
    } = scene;
    let nobody = Ok(Nobody::new(all));
    let ran = run_turns(alloc, config, doors.all, clock, control, turns, nobody);
    is_left_so(ran, setting)
}

/// Runs the doors of a run in a table by the rule of the setting, unless the turns have this fault.
/// Returns true if this leaves the results at their connections that the table says.
pub fn ran_so(
    alloc: Global,
    config: Config,
    table: &Table,
    run: Run,
    setting: &Setting,
    fault: Option<TurnsFault>,
    all: &Together,
) -> Result<bool, RunFault> {
    let scene = scene_of(alloc, table, run, setting, all)?;
    let turns = turns_of(setting, config.seats, fault, all);
    ran_by(alloc, config, scene, setting, turns, all)
}

// Returns true if a run has the results of the table, and opens each door once for each connection
// and once more.
fn comes_out(alloc: Global, table: &Table, run: Run, setting: &Setting) -> bool {
    let all = Together::new();
    let config = config(run.doors.min(256) as u16, USUAL_BODY);
    match ran_so(alloc, config, table, run, setting, None, &all) {
        Ok(is_so) => is_so && !all.has_given_up() && all.opened() == run.opens(),
        Err(_) => false,
    }
}

// Does the same as `ran_so` by the order of a server, by which the loop may sleep.
fn ran_as_a_server(
    alloc: Global,
    table: &Table,
    run: Run,
    setting: &Setting,
    all: &Together,
) -> Result<bool, RunFault> {
    let scene = scene_of(alloc, table, run, setting, all)?;
    let config = config(2, USUAL_BODY);
    let turns = Order::new(alloc, config.seats);
    ran_by(alloc, config, scene, setting, turns, all)
}

// Returns how often the loop sleeps in the first run of a table, or 0 if its results are wrong.
fn sleeps_of(alloc: Global, table: &Table, setting: &Setting, all: &Together) -> u64 {
    match table.runs.first() {
        Some(run) => match ran_as_a_server(alloc, table, *run, setting, all) {
            Ok(true) => all.slept(),
            _ => 0,
        },
        None => 0,
    }
}

/// Returns how often the loop sleeps in the one run that the text describes, which has two doors, or
/// 0 if the run has not the results that it says.
pub fn sleeps_in(alloc: Global, text: &'static str, setting: &Setting) -> u64 {
    let all = Together::new();
    sleeps_of(alloc, &Table::of_text(alloc, text), setting, &all)
}

/// Returns true if each run that the text describes has the results that it says, with each setting
/// of the series.
pub fn come_out(alloc: Global, text: &'static str, series: Series) -> bool {
    let table = Table::of_text(alloc, text);
    for number in 0..series.len() {
        let setting = series.setting(number);
        for run in &table.runs {
            if !comes_out(alloc, &table, *run, &setting) {
                return false;
            }
        }
    }
    table.is_whole
}
