//! Lists of names in byte order, without duplicates.
ghost use Rattle.std.specs.{List.{position, prefix_len, slice_get}, Prelude.{IfOk, not, vec_len, ◌+◌, ◌<◌, ◌≡◌, ◌≤◌}, Vec.vec_capacity};
ghost use Rattle.bq_job.specs.machine.{TubeOrder.{in_name_order, with_name}, Tubes.is_name_before};
ghost use Rattle.bq_state.specs.Names.{is_named, names_of};

use bq_job::NoMemory;
use bq_jobs::Tube;
use std::alloc::Global;

/// References to names.
pub type Names<'a> = Vec<&'a [u8], Global>;

fn is_before(a: &[u8], b: &[u8]) -> bool
    ensures { result ≡ is_name_before a.now b.now }
{
    a.cmp(b).is_lt()
}

// Returns the place of the first name that doesn't come before this one.
fn first_after(names: &[&[u8]], name: &[u8]) -> Option<usize>
    ensures { result ≡ position (λ other. not (is_name_before other.now name.now)) names.now }
{
    names.iter().position(|other| !is_before(other, name))
}

// Returns the place of the name, or where it would be inserted.
#[tactic(auto, using(crate::proofs::TubeLemmas::place_told))]
fn place_of(names: &[&[u8]], name: &[u8]) -> usize
    ensures { result ≡ prefix_len (λ other. is_name_before other.now name.now) names.now }
{
    first_after(names, name).unwrap_or(names.len())
}

// Returns true if the name is at place i.
fn is_at(names: &[&[u8]], i: usize, name: &[u8]) -> bool
    ensures { result ≡ is_named name.now (slice_get names.now i) }
{
    match names.get(i) {
        None => false,
        Some(other) => name == *other,
    }
}

// Inserts a name in order, unless it is there. It allocates nothing.
fn add<'a>(names: &mut Names<'a>, name: &'a [u8])
    requires { vec_len names.old < vec_capacity names.old }
    ensures names { names_of names.new.items ≡ with_name (names_of names.old.items) name.now }
    ensures len { vec_len names.new ≤ vec_len names.old + 1 }
    ensures capacity { vec_capacity names.old ≤ vec_capacity names.new }
{
    let i = place_of(names.as_slice(), name);
    if !is_at(names.as_slice(), i, name) {
        let _fits = names.insert(i, name);
    }
}

/// Returns the names of these tubes in byte order without duplicates, or `NoMemory` if the
/// allocation for them fails.
pub fn in_order<'a>(alloc: Global, tubes: &'a [Tube]) -> Result<Names<'a>, NoMemory>
    ensures { IfOk result (λ names. names_of names.items ≡ in_name_order tubes.now) }
{
    let Ok(mut names) = Vec::with_capacity(alloc, tubes.len()) else {
        return Err(NoMemory);
    };
    for tube in tubes {
        add(&mut names, tube.name().as_slice());
    }
    Ok(names)
}
