//! The number of a tube.
ghost use Rattle.std.specs.Cmp as Cmp;
ghost use Rattle.bq_jobs.specs.Names.{name_cmp, name_total, number_in};
ghost use Rattle.std.proofs.Common.{refl};
ghost use Rattle.std.specs.Ordering.{as_partial_cmp, eq_by_cmp};
ghost use Rattle.std.specs.Prelude.{◌≡◌, ◌<◌, ◌^◌, ◌∷◌, []};

use std::cmp::Ordering;
use std::marker::Model;

/// The number of a tube, which records and keys use in place of its name. A contract sees it as a
/// name of one element that may be any number below 2^30. So a statement about jobs with names also
/// holds for records with numbers.
#[derive(Clone, Copy)]
pub struct TubeNumber(u32);

impl Model for TubeNumber {
    ghost use Rattle.std.specs.Prelude.{List, ℕ, [], ◌∷◌, ◌<◌, ◌^◌};
    ghost use Rattle.bq_jobs.specs.Names.{number_in};

    ghost Value = { List ℕ };

    ghost view = { λ n. n.0 ∷ [] };

    // Two bits are left for what is stored about a tube beside its number.
    ghost invariant = { λ n. n.0 < 2 ^ 30 };

    ghost inverse = { λ name. record { 0 = number_in name } };
}

impl TubeNumber {
    ghost use Rattle.std.specs.Prelude.{◌≡◌, [], ◌∷◌, ◌<◌, ◌^◌};
    ghost use Rattle.bq_jobs.specs.Names.{number_in};

    /// Returns a number at which to look if no number is known. No tube has it unless there are
    /// 2^30 tubes.
    pub fn unknown() -> TubeNumber
        ensures { result ≡ 1073741823 ∷ [] }
    {
        TubeNumber((1 << 30) - 1)
    }

    /// Returns the number that a table of tubes gives to its first tube.
    pub fn first() -> TubeNumber
        ensures { result ≡ 0 ∷ [] }
    {
        TubeNumber(0)
    }

    /// Returns the number of a tube.
    pub(crate) fn of(number: u32) -> TubeNumber
        requires { number < 2 ^ 30 }
        ensures { result ≡ number ∷ [] }
    {
        TubeNumber(number)
    }

    /// Returns the number as an integer.
    pub(crate) fn get(self) -> u32
        ensures number { result ≡ number_in self }
        ensures alone { self ≡ result ∷ [] }
        ensures few { result < 2 ^ 30 }
    {
        self.0
    }
}

impl PartialEq for TubeNumber {
    ghost eq = { eq_by_cmp name_cmp };

    ghost laws = { Cmp.partial_equiv_from_equiv (Cmp.eq_by_cmp_equiv name_total) };

    fn eq(&self, other: &TubeNumber) -> bool {
        self.cmp(other).is_eq()
    }
}

impl Eq for TubeNumber {
    ghost laws = { Cmp.eq_by_cmp_equiv name_total };
}

impl PartialOrd for TubeNumber {
    ghost partial_cmp = { as_partial_cmp name_cmp };

    ghost laws = { Cmp.partial_order_from_agreeing_total name_cmp name_total (λ a b. refl) (λ a b. refl) };

    fn partial_cmp(&self, other: &TubeNumber) -> Option<Ordering> {
        Some(self.cmp(other))
    }
}

impl Ord for TubeNumber {
    ghost cmp = { name_cmp };

    ghost total = { name_total };

    ghost matches_partial_cmp = { λ a b. refl };

    ghost matches_eq = { λ a b. refl };

    fn cmp(&self, other: &TubeNumber) -> Ordering {
        self.0.cmp(&other.0)
    }
}
