//! Laws about all texts of statistics and all lists.
ghost use Rattle.std.specs.Prelude.{◌≡◌, ℕ, List, IsTrue};
ghost use Rattle.std.specs.List.{list_any};
ghost use Rattle.bq_job.specs.machine.{Machine.Machine, in_name_order, is_tube, tubes};
ghost use Rattle.bq_job.specs.beside.{is_in_order};
ghost use Rattle.bq_job.specs.reading.TubeName.{is_same_name};

/// A tube is listed if and only if it exists.
#[tactic(auto, using(crate::proofs::NameOrderLemmas::listed))]
pub fn existing_tubes_are_listed()
    ensures { (name : List ℕ) (m : Machine)
        → list_any (is_same_name name) (tubes m) ≡ is_tube name m }
{}

/// Names are listed in byte order, each once.
#[tactic(auto, using(crate::proofs::NameOrderLemmas::in_order_fold))]
pub fn names_are_in_order()
    ensures { (names : List (List ℕ)) → IsTrue (is_in_order (in_name_order names)) }
{}

/// Names that are already in byte order are listed unchanged.
#[tactic(auto, using(crate::proofs::NameOrderLemmas::stays_fold))]
pub fn order_stays()
    ensures { (names : List (List ℕ)) → IsTrue (is_in_order names) → in_name_order names ≡ names }
{}
