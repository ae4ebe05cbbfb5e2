ghost use Rattle.std.specs.Prelude.{◌≡◌, ◌↔◌, IsSome, IfSome, IsTrue, ◌≤◌, ◌<◌, ◌%◌, ℕ, drop, length, get_or};
ghost use Rattle.bq_job.specs.reading.TubeName.{is_tube_name, name_byte, is_same_name, begins_name, filled_up};
ghost use Rattle.std.specs.List.{list_all};
ghost use Rattle.std.specs.Cmp.Lexicographic.{slice_cmp};
ghost use Rattle.std.specs.Ordering.{nat_cmp};
ghost use Rattle.std.specs.Int.{from_be_bytes, w64};

use std::alloc::AllocError;
use std::cmp::Ordering;
use std::marker::Model;

/// The largest length of a tube name, in bytes.
pub const LONGEST_NAME: usize = 200;

/// The name of a tube: 1 to 200 bytes of ASCII letters, digits and `- + / ; . $ _ ( )`; the first
/// byte is not `-`. The name is in a fixed array, so making and cloning one allocate nothing. The
/// length comes before the bytes, so that a short name is read from one place in memory.
#[derive(Clone, Copy)]
pub struct TubeName {
    len: u8,
    bytes: [u8; LONGEST_NAME],
}

impl Model for TubeName {
    ghost use Rattle.std.specs.Prelude.{List, ℕ, ◌≡◌, ◌≤◌, take, length, IsTrue};
    ghost use Rattle.bq_job.specs.reading.TubeName.{is_tube_name, filled_up};
    ghost use Rattle.std.specs.Prelude.{◌-◌, replicate};
    ghost use Rattle.std.proofs.Common.{sym, ap, arith};
    ghost use Rattle.std.proofs.lemmas.List.{length-take, length-append, length-replicate};

    ghost Value = { List ℕ };

    ghost view = { λ n. take n.len n.bytes };

    // The bytes after the name are 0, so that the name determines the array.
    ghost invariant = { λ n. (n.len ≤ 200) × IsTrue (is_tube_name (take n.len n.bytes)) × (n.bytes ≡ filled_up (take n.len n.bytes)) };

    ghost inverse = { λ bytes. record { bytes = filled_up bytes; len = length bytes } };

    // The name determines the array and the length.
    ghost inverse_ok = { λ n h.
        let name : List ℕ = take n.len n.bytes in
        let whole : filled_up name ≡ n.bytes = sym h.2 in
        let rest : List ℕ = replicate (200 - length name) 0 in
        let len : length name ≡ n.len =
        omega (
          arith,
          h.0,
          length-take n.len n.bytes,
          ap length h.2,
          length-append name rest,
          length-replicate {A = ℕ} (200 - length name) 0,
        )
        in λ i. record { bytes = whole i; len = len i } };
}

impl TubeName {
    /// Returns the name of these bytes, or `None` if they are not a valid name.
    pub fn new(bytes: &[u8]) -> Option<TubeName>
        ensures lawful { IsSome result ↔ IsTrue (is_tube_name bytes.now) }
        ensures bytes { IfSome result (λ name. name ≡ bytes.now) }
    {
        if !is_name(bytes) {
            return None;
        }
        Some(TubeName {
            len: bytes.len() as u8,
            bytes: filled(bytes),
        })
    }

    /// Returns the bytes of the name.
    pub fn as_slice(&self) -> &[u8]
        ensures bytes { result.now ≡ self.now }
        ensures lawful { IsTrue (is_tube_name result.now) }
    {
        &self.bytes[..self.len as usize]
    }
}

// Returns true if the byte may occur in a tube name.
fn is_name_byte(b: u8) -> bool
    ensures { result ≡ name_byte b }
{
    b.is_ascii_alphanumeric()
        || matches!(
            b,
            b'-' | b'+' | b'/' | b';' | b'.' | b'$' | b'_' | b'(' | b')'
        )
}

// Returns true if a name may begin with these bytes: they are not empty and do not begin with `-`.
fn begins_well(bytes: &[u8]) -> bool
    ensures { result ≡ begins_name bytes.now }
{
    match bytes {
        [] => false,
        [first, ..] => *first != b'-',
    }
}

fn are_name_bytes(bytes: &[u8]) -> bool
    ensures { result ≡ list_all name_byte bytes.now }
{
    bytes.iter().all(|b| is_name_byte(*b))
}

// Returns true if the bytes are a valid tube name.
fn is_name(bytes: &[u8]) -> bool
    ensures { result ≡ is_tube_name bytes.now }
{
    begins_well(bytes) && bytes.len() <= LONGEST_NAME && are_name_bytes(bytes)
}

// Returns an array with these bytes at its front and zeros after them.
#[tactic(auto, using(crate::proofs::FilledLemmas::filled_front))]
fn filled(bytes: &[u8]) -> [u8; LONGEST_NAME]
    requires { length bytes.now ≤ 200 }
    ensures { result ≡ filled_up bytes.now }
{
    let mut copy = [0; LONGEST_NAME];
    let n = bytes.len();
    let front = &mut copy[..n];
    front.copy_from_slice(bytes);
    copy
}

// Returns `len`, rounded up to a multiple of eight.
fn whole_words(len: u8) -> usize
    requires { len ≤ 200 }
    ensures enough { len ≤ result }
    ensures fits { result ≤ 200 }
    ensures whole { result % 8 ≡ 0 }
{
    (usize::from(len) + 7) / 8 * 8
}

// Returns eight bytes as one number, big end first.
fn word_of(bytes: [u8; 8]) -> u64
    ensures word { result ≡ from_be_bytes w64 bytes }
    ensures bytes { (i : ℕ) → get_or bytes i 0 < 256 }
{
    u64::from_be_bytes(bytes)
}

// Returns the bytes after the first eight.
fn after_word(bytes: &[u8]) -> &[u8]
    requires { 8 ≤ length bytes.now }
    ensures { result.now ≡ drop 8 bytes.now }
{
    &bytes[8..]
}

// Compares two slices of the same length, which is a multiple of eight, byte by byte, as `Ord` of
// slices does. It compares eight bytes at a time, as one number.
fn cmp_words(bytes: &[u8], others: &[u8]) -> Ordering
    requires whole { length bytes.now % 8 ≡ 0 }
    requires alike { length bytes.now ≡ length others.now }
    ensures { result ≡ slice_cmp nat_cmp bytes.now others.now }
{
    match bytes {
        [a, b, c, d, e, f, g, h, ..] => match others {
            [i, j, k, l, m, n, o, p, ..] => {
                let word = word_of([*a, *b, *c, *d, *e, *f, *g, *h]);
                let other = word_of([*i, *j, *k, *l, *m, *n, *o, *p]);
                if word == other {
                    cmp_words(after_word(bytes), after_word(others))
                } else {
                    word.cmp(&other)
                }
            }
            _ => Ordering::Equal,
        },
        _ => Ordering::Equal,
    }
}

// Compares two names up to the end of the longer one. It is not inlined, so that a lookup that
// needs only the first eight bytes has their comparison in its own code.
#[inline(never)]
#[tactic(auto, using(std::proofs::lemmas::Grind::common_steps, crate::proofs::NameWords::fronts_compare))]
fn cmp_whole(name: &TubeName, other: &TubeName) -> Ordering
    ensures { result ≡ slice_cmp nat_cmp name.now other.now }
{
    let end = whole_words(name.len.max(other.len));
    cmp_words(&name.bytes[..end], &other.bytes[..end])
}

impl PartialEq for TubeName {
    ghost use Rattle.std.specs.Cmp as Cmp;
    ghost use Rattle.std.specs.Cmp.Lexicographic.{nat_list_eq_equiv};

    ghost eq = { is_same_name };

    ghost laws = { Cmp.partial_equiv_from_equiv nat_list_eq_equiv };

    fn eq(&self, other: &TubeName) -> bool {
        self.as_slice() == other.as_slice()
    }
}

impl Eq for TubeName {
    ghost use Rattle.std.specs.Cmp.Lexicographic.{nat_list_eq_equiv};

    ghost laws = { nat_list_eq_equiv };
}

/// Names are ordered by their bytes.
impl PartialOrd for TubeName {
    ghost use Rattle.std.proofs.Common.{refl, sym};
    ghost use Rattle.std.specs.Cmp as Cmp;
    ghost use Rattle.std.specs.Cmp.Lexicographic.{nat_list_cmp_total, slice_cmp, texts_ties};
    ghost use Rattle.std.specs.Ordering.{as_partial_cmp, nat_cmp};

    ghost partial_cmp = { as_partial_cmp (slice_cmp nat_cmp) };

    ghost laws = { Cmp.partial_order_from_agreeing_total (slice_cmp nat_cmp) nat_list_cmp_total (λ a b. refl) texts_ties };

    fn partial_cmp(&self, other: &TubeName) -> Option<Ordering> {
        Some(self.cmp(other))
    }
}

impl Ord for TubeName {
    ghost use Rattle.std.proofs.Common.{refl};
    ghost use Rattle.std.specs.Cmp.Lexicographic.{nat_list_cmp_total, slice_cmp, texts_ties};
    ghost use Rattle.std.specs.Ordering.{nat_cmp};

    ghost cmp = { slice_cmp nat_cmp };

    ghost total = { nat_list_cmp_total };

    ghost matches_partial_cmp = { λ a b. refl };

    ghost matches_eq = { texts_ties };

    fn cmp(&self, other: &TubeName) -> Ordering {
        let (a, b) = (&self.bytes, &other.bytes);
        let word = word_of([a[0], a[1], a[2], a[3], a[4], a[5], a[6], a[7]]);
        let other_word = word_of([b[0], b[1], b[2], b[3], b[4], b[5], b[6], b[7]]);
        if word == other_word {
            return cmp_whole(self, other);
        }
        word.cmp(&other_word)
    }
}
