ghost use Rattle.std.specs.{List.list_any, Prelude.{IfOk, OnErr, [], filter, length, not, true, vec_len, ◌++◌, ◌<◌, ◌∷◌, ◌≡◌}};
ghost use Rattle.std.specs.Vec.{vec_capacity};
ghost use Rattle.bq_job.specs.{machine.Machine.default_tube, reading.TubeName.is_same_name};

use bq_job::{NoMemory, TubeName};
use bq_jobs::{Tube, TubeNumber};
use std::alloc::Global;
use std::marker::Model;

/// The tubes that a client watches, in the order in which it watched them. There is at least one.
#[derive(Drop)]
pub(crate) struct WatchList {
    tubes: Vec<Tube, Global>,
}

impl Model for WatchList {
    ghost use Rattle.std.specs.Prelude.{List, length, ℕ, ◌<◌};

    ghost Value = { List (List ℕ) };

    ghost view = { λ w. w.tubes.items };

    ghost invariant = { λ w. 0 < length w.tubes.items };
}

/// Returns the tube that a new client uses and watches.
pub(crate) fn default_tube() -> TubeName
    ensures { result ≡ default_tube }
{
    let Some(name) = TubeName::new(b"default") else {
        unreachable!();
    };
    name
}

/// Returns the default tube with its number. It is registered before any other tube, and never
/// removed, so it keeps the first number.
pub(crate) fn numbered_default() -> Tube
    ensures { result ≡ default_tube }
{
    Tube::new(&default_tube(), TubeNumber::first())
}

// Makes room for one more element, if there is none.
fn reserve_one<T: Drop>(list: &mut Vec<T, Global>, alloc: Global) -> Result<(), NoMemory>
    ensures items { list.new.items ≡ list.old.items }
    ensures room { IfOk result (λ _. vec_len list.new < vec_capacity list.new) }
{
    let len = list.len();
    if len < list.capacity() {
        return Ok(());
    }
    let Some(more) = len.checked_add(4) else {
        return Err(NoMemory);
    };
    let Ok(mut wider) = Vec::with_capacity(alloc, more.saturating_add(len)) else {
        return Err(NoMemory);
    };
    // There is enough room, so this allocates nothing.
    if wider.append(list).is_err() {
        return Err(NoMemory);
    }
    *list = wider;
    Ok(())
}

// There is another tube, so some are left.
fn keep_others(tubes: &mut Vec<Tube, Global>, name: &TubeName)
    requires other { list_any (λ other. not (is_same_name name.now other)) tubes.old.items ≡ true }
    ensures kept { tubes.new.items
        ≡ filter (λ other. not (is_same_name name.now other)) tubes.old.items }
    ensures some { 0 < length tubes.new.items }
{
    tubes.retain(|other| name != other.name());
}

impl WatchList {
    /// Returns a list with only the default tube.
    pub(crate) fn new(alloc: Global) -> Result<WatchList, NoMemory>
        ensures { IfOk result (λ list. list ≡ default_tube ∷ []) }
    {
        let mut tubes = Vec::new(alloc);
        match tubes.push(numbered_default()) {
            Ok(()) => Ok(WatchList { tubes }),
            Err(_) => Err(NoMemory),
        }
    }

    pub(crate) fn len(&self) -> usize
        ensures { result ≡ length self.now }
    {
        self.tubes.len()
    }

    pub(crate) fn as_slice(&self) -> &[Tube]
        ensures { result.now ≡ self.now }
    {
        self.tubes.as_slice()
    }

    pub(crate) fn has(&self, name: &TubeName) -> bool
        ensures { result ≡ list_any (is_same_name name.now) self.now }
    {
        self.tubes.iter().any(|other| name == other.name())
    }

    /// Returns true if it contains another tube than this one.
    pub(crate) fn has_other(&self, name: &TubeName) -> bool
        ensures { result ≡ list_any (λ other. not (is_same_name name.now other)) self.now }
    {
        self.tubes.iter().any(|other| name != other.name())
    }

    /// Appends a tube. No other change of a list allocates.
    pub(crate) fn add(&mut self, alloc: Global, tube: Tube) -> Result<(), NoMemory>
        ensures pushed { IfOk result (λ _. self.new ≡ self.old ++ tube ∷ []) }
        ensures same { OnErr result (self.new ≡ self.old) }
    {
        reserve_one(&mut self.tubes, alloc)?;
        self.tubes.push_reserved(tube);
        Ok(())
    }

    /// Removes a tube; another one stays.
    pub(crate) fn remove(&mut self, name: &TubeName)
        requires { list_any (λ other. not (is_same_name name.now other)) self.old ≡ true }
        ensures { self.new ≡ filter (λ other. not (is_same_name name.now other)) self.old }
    {
        keep_others(&mut self.tubes, name);
    }

    /// Resets the list to only the default tube. It allocates nothing.
    pub(crate) fn reset(&mut self)
        ensures { self.new ≡ default_tube ∷ [] }
    {
        self.tubes.truncate(1);
        self.tubes[0] = numbered_default();
    }
}
