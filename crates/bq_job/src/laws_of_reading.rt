//! Laws about every reading of a text into requests.
ghost use Rattle.std.specs.Prelude.{◌≡◌, ◌++◌, ℕ, List, IsTrue};
ghost use Rattle.bq_job.specs.beside.{AreSameRequests, reading};
ghost use Rattle.bq_job.specs.reading.Reading.{Reads, ends_by_quit};
ghost use Rattle.bq_job.specs.declared.request.Request.{Request};

/// Every text has a reading: the computed one, in which no allocation fails.
#[tactic(auto, using(crate::proofs::ReadsLemmas::computed_readings))]
pub fn every_text_is_read()
    ensures { (max_job_size : ℕ) (text : List ℕ)
        → Reads max_job_size text (reading max_job_size text).0 (reading max_job_size text).1 }
{}

/// A text has one reading: two readings have the same rest and equally many requests, and these
/// agree except where an allocation failed.
pub fn one_reading_only()
    ensures { (max_job_size : ℕ) (text : List ℕ) (firsts seconds : List Request) (rest other : List ℕ)
        → Reads max_job_size text firsts rest → Reads max_job_size text seconds other → (rest ≡ other) × AreSameRequests firsts seconds }
{}

/// Nothing is read after a quit, so any bytes may follow it.
pub fn anything_follows_a_quit()
    ensures { (max_job_size : ℕ) (text more : List ℕ) (requests : List Request) (rest : List ℕ)
        → Reads max_job_size text requests rest → IsTrue (ends_by_quit requests)
        → Reads max_job_size (text ++ more) requests (rest ++ more) }
{}
