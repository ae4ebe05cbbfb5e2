//! Worked examples of whole histories: what was read and written at each door, and whether one
//! history of all clients' steps explains it. Each is a clause on the definitions; none runs our
//! code.
ghost use Rattle.bq_job.specs.declared.answer.Answer.{Answer};
ghost use Rattle.bq_job.specs.declared.step.Step.{Step};
ghost use Rattle.bq_job.specs.declared.answer.Answer.TheVariants.{Closed, Deleted, Inserted, Kicked};
ghost use Rattle.bq_job.specs.declared.request.Request.TheVariants.{Put, Quit, Reserve};
ghost use Rattle.bq_job.specs.declared.step.Step.TheVariants.{Ask, Close, Connect, Drain, Gone};
ghost use Rattle.bq_job.specs.promise.{IsControlDone, IsDoorOwed, IsDoorOwedSoFar, IsHistoryOf, IsLineOwed, IsTimedBy, LineOver};
ghost use Rattle.bq_wire_tests.specs.examples.Examples.{ask, at, close, connect};
ghost use Rattle.bq_wire_tests.specs.examples.HistoryExamples.{AreServedOver, closing_after, drain_at, ended_line, gone, quit_line, seated};
ghost use Rattle.bq_wire_tests.specs.examples.HistoryExamples.{shut_line, unread_line, unwritten_line, usual};
ghost use Rattle.bq_job.specs.machine.{Machine.Machine};
ghost use Rattle.std.specs.Prelude.{ℕ, Bool, false, ◌≡◌, List, [], ◌∷◌, Option, Some, codes};

/// Histories of doors that were served. In the first, a put answers the reserve of the other door's
/// client. In the second, the job that a door's first client held goes to its second client, whose
/// connection ends with a quit. In the third, a write breaks off within INSERTED, and then a read
/// fails while a reserve waits for the delayed job.
fn doors_are_served()
    ensures a_put_answers_a_reserve { AreServedOver
        (connect 0 ∷ connect 1 ∷ ask 0 Reserve ∷ ask 1 (Put 5 0 10 (codes "abc")) ∷ drain_at 2
        ∷ close 0 ∷ close 1 ∷ gone 0 ∷ gone 1 ∷ gone 2 ∷ [])
        ((ended_line (codes "reserve\r\n") (codes "RESERVED 1 3\r\nabc\r\n") ∷ [])
        ∷ (ended_line (codes "put 5 0 10 3\r\nabc\r\n") (codes "INSERTED 1\r\n") ∷ [])
        ∷ [])
        (codes "drain\n") }
    ensures a_quit_ends_the_second_line { AreServedOver
        (connect 0 ∷ ask 0 (Put 0 0 9 (codes "x")) ∷ ask 0 Reserve ∷ close 0
        ∷ connect 0 ∷ ask 0 Reserve ∷ ask 0 Quit ∷ close 0 ∷ gone 0 ∷ gone 1 ∷ [])
        ((ended_line (codes "put 0 0 9 1\r\nx\r\nreserve\r\n") (codes "INSERTED 1\r\nRESERVED 1 1\r\nx\r\n")
        ∷ quit_line (codes "reserve\r\nquit\r\n") (codes "RESERVED 1 1\r\nx\r\n")
        ∷ [])
        ∷ [])
        [] }
    ensures faults_end_both_lines { AreServedOver
        (connect 0 ∷ ask 0 (Put 0 100 9 (codes "x")) ∷ close 0
        ∷ connect 0 ∷ ask 0 Reserve ∷ close 0 ∷ gone 0 ∷ gone 1 ∷ [])
        ((unwritten_line (codes "put 0 100 9 1\r\nx\r\nreserve\r\n") (codes "INSE")
        ∷ unread_line (codes "reserve\r\n") []
        ∷ [])
        ∷ [])
        [] }
{}

/// A reading that is smaller than the last one counts as the last one, so a step at the smaller
/// moment is rejected. One reading of the clock does not time two steps.
fn moments_never_fall()
    ensures kept { IsTimedBy (Some 5 ∷ Some 3 ∷ []) (at 5 (connect 0) ∷ at 5 (close 0) ∷ []) }
    ensures fallen { IsTimedBy (Some 5 ∷ Some 3 ∷ []) (at 5 (connect 0) ∷ at 3 (close 0) ∷ []) → ⊥ }
    ensures used_twice { IsTimedBy (Some 5 ∷ []) (at 5 (connect 0) ∷ at 5 (close 0) ∷ []) → ⊥ }
{}

/// Records that no connection can leave: the steps lack a command that the client sent; a
/// connection has ended though the end of its input was not read; a client that is owed INSERTED
/// received another client's answer; a connection was opened at a door and never closed.
fn no_line_is_owed_so()
    ensures command_missing { (written : List ℕ) (given : List Answer)
        → IsLineOwed usual (ended_line (codes "delete 1\r\nreserve\r\n") written) (Connect ∷ Ask Reserve ∷ Close ∷ []) given → ⊥ }
    ensures end_unread { (taken : List Step) (given : List Answer)
        → IsLineOwed usual (shut_line [] []) taken given → ⊥ }
    ensures bytes_of_another { IsDoorOwed usual (ended_line (codes "put 5 0 10 3\r\nabc\r\n") (codes "RESERVED 1 3\r\nabc\r\n") ∷ [])
        (Connect ∷ Ask (Put 5 0 10 (codes "abc")) ∷ Close ∷ Gone ∷ []) (Inserted 1 ∷ Closed ∷ []) → ⊥ }
    ensures dropped { (lines : List LineOver) (given : List Answer)
        → IsDoorOwed usual lines (Connect ∷ Ask Reserve ∷ Gone ∷ []) given → ⊥ }
{}

/// A door whose first connection has ended while its second one is open and was closed. The reserve
/// of the first client is not answered by the `Closed` of the second one.
fn no_open_door_is_owed_so()
    ensures answered_by_a_later_close { IsDoorOwedSoFar usual (closing_after (ended_line (codes "reserve\r\n") []))
        (Connect ∷ Ask Reserve ∷ Close ∷ Connect ∷ Close ∷ []) (Closed ∷ Closed ∷ []) → ⊥ }
{}

/// A door that was never opened. Its history is not two drains alone, since without control input
/// there are no two drains, and the history has no answers.
#[tactic(auto, using(crate::proofs::HistoryLemmas::none_behind))]
fn door_never_opened()
    ensures steps { (control : List ℕ) (failed : Bool) (readings : List (Option ℕ)) (last : Machine)
        (h : IsHistoryOf (seated 1) ([] ∷ []) control failed readings last)
        → h.history ≡ drain_at 1 ∷ drain_at 1 ∷ [] → ⊥ }
    ensures answers { (control : List ℕ) (failed : Bool) (readings : List (Option ℕ)) (last : Machine)
        (h : IsHistoryOf (seated 1) ([] ∷ []) control failed readings last)
        → h.given ≡ (0, Kicked) ∷ (5, Deleted) ∷ [] → ⊥ }
    ensures drains { IsControlDone [] false (Drain ∷ Drain ∷ []) → ⊥ }
{}

#[test]
fn examples_of_histories() {
    doors_are_served();
    moments_never_fall();
    no_line_is_owed_so();
    no_open_door_is_owed_so();
    door_never_opened();
}
