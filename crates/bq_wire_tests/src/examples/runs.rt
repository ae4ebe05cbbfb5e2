//! Worked examples of whole runs, so that the laws of runs are not empty. Each is a clause that
//! holds by evaluating the definitions; none runs our code.
ghost use Rattle.bq_job.specs.declared.answer.Answer.TheVariants.{Draining, Inserted};
ghost use Rattle.bq_job.specs.declared.request.Request.TheVariants.{Bury, Delete, Kick, PauseTube, Put, Release, Reserve, ReserveJob};
ghost use Rattle.bq_job.specs.beside.{machine_after, transitions};
ghost use Rattle.bq_wire_tests.specs.examples.Examples.{ask, at, close, connect, drain, server, tick};
ghost use Rattle.bq_job.specs.machine.{last_id};
ghost use Rattle.bq_wire_tests.specs.examples.RunExamples.{HandsOutDisturbed, HandsOutUndisturbed, happening_in, taken};
ghost use Rattle.bq_job.specs.laws.{Holds, IsHandedOutBefore, IsPutBefore, has_inserted, is_deletion};
ghost use Rattle.std.specs.Prelude.{List, [], ◌∷◌, ◌≡◌, codes, false, map, true};
ghost use Rattle.std.specs.List.{list_any};

/// Jobs that nothing disturbs.
fn undisturbed_jobs()
    // Two undisturbed jobs are handed out in the order of their puts, whichever client has waited
    // longer.
    ensures two_jobs_in_order { HandsOutUndisturbed (1 ∷ 2 ∷ [])
        (ask 0 (PauseTube (codes "default") 5)
        ∷ ask 0 (Put 7 0 9 (codes "x"))
        ∷ ask 0 (Put 7 0 9 (codes "y"))
        ∷ ask 2 Reserve
        ∷ ask 1 Reserve
        ∷ tick 5000
        ∷ []) }
    // The job that was put first is put, and handed out, before the other one and not after it.
    ensures order_of_two_jobs_put_first { let happened = happening_in
        (ask 0 (Put 7 0 9 (codes "x")) ∷ ask 0 (Put 7 0 9 (codes "y")) ∷ ask 2 Reserve ∷ ask 1 Reserve ∷ [])
        in IsPutBefore 1 2 happened × IsHandedOutBefore 1 2 happened }
    ensures order_of_two_jobs_not_behind { let happened = happening_in
        (ask 0 (Put 7 0 9 (codes "x")) ∷ ask 0 (Put 7 0 9 (codes "y")) ∷ ask 2 Reserve ∷ ask 1 Reserve ∷ [])
        in (IsPutBefore 2 1 happened → ⊥) × (IsHandedOutBefore 2 1 happened → ⊥) }
{}

/// Jobs that are disturbed.
fn disturbed_jobs()
    // A job whose time to run has expired is handed out again, and so is not undisturbed.
    ensures expired_job_goes_out_twice { HandsOutDisturbed (1 ∷ 1 ∷ [])
        (ask 0 (Put 0 0 1 (codes "x"))
        ∷ ask 1 Reserve
        ∷ tick 1000
        ∷ at 1000 (ask 2 Reserve)
        ∷ []) }
    // A job that was released is handed out again, and so is not undisturbed.
    ensures released_job_goes_out_twice { HandsOutDisturbed (1 ∷ 1 ∷ [])
        (ask 0 (Put 0 0 9 (codes "x"))
        ∷ ask 1 Reserve
        ∷ ask 1 (Release 1 0 0)
        ∷ ask 2 Reserve
        ∷ []) }
    // A job that was buried and kicked is handed out again, and so is not undisturbed.
    ensures buried_job_goes_out_twice { HandsOutDisturbed (1 ∷ 1 ∷ [])
        (ask 0 (Put 0 0 9 (codes "x"))
        ∷ ask 1 Reserve
        ∷ ask 1 (Bury 1 0)
        ∷ ask 0 (Kick 1)
        ∷ ask 2 Reserve
        ∷ []) }
    // A job goes to a client in the very step that closes its connection, and in the same step to
    // another client, so it is not undisturbed.
    ensures job_goes_out_in_the_close_of_its_client { HandsOutDisturbed (1 ∷ 1 ∷ [])
        (ask 0 (PauseTube (codes "default") 5)
        ∷ ask 0 (Put 0 0 9 (codes "x"))
        ∷ ask 1 Reserve
        ∷ ask 2 Reserve
        ∷ at 5000 (close 1)
        ∷ []) }
    // A job that was reserved by reserve-job was not handed out, and is not undisturbed.
    ensures job_reserved_by_id { HandsOutDisturbed []
        (ask 0 (Put 0 0 9 (codes "x"))
        ∷ ask 1 (ReserveJob 1)
        ∷ []) }
    // A job that was put with a delay is not undisturbed.
    ensures job_put_with_a_delay { HandsOutDisturbed (1 ∷ [])
        (ask 0 (Put 0 5 9 (codes "x"))
        ∷ ask 1 Reserve
        ∷ tick 5000
        ∷ []) }
{}

/// Puts around a drain.
fn puts_and_the_drain()
    // In the steps of three connections, a put, the drain and another put, only the put before the
    // drain is answered INSERTED.
    ensures inserted_before_the_drain { map (λ t. has_inserted t.given) (taken
        (ask 0 (Put 0 0 9 (codes "x")) ∷ drain ∷ ask 0 (Put 0 0 9 (codes "y")) ∷ []))
        ≡ false ∷ false ∷ false ∷ true ∷ false ∷ false ∷ [] }
{}

/// The client that reserved a job holds it.
fn holder_of_a_job()
    ensures { Holds
        (machine_after (server 1 65535)
        (connect 0 ∷ ask 0 (Put 0 0 9 (codes "x")) ∷ ask 0 Reserve ∷ [])) 0 1 }
{}

/// The last id, and deletes.
fn last_id_and_deletes()
    // The put that gets the last id is accepted; no later put is.
    ensures put_of_the_last_id { map (λ t. t.given) (transitions (record (server 1 65535) { next_id = last_id })
        (connect 0 ∷ ask 0 (Put 0 0 9 (codes "x")) ∷ ask 0 (Put 0 0 9 (codes "y")) ∷ []))
        ≡ [] ∷ ((0, Inserted last_id) ∷ []) ∷ ((0, Draining) ∷ []) ∷ [] }
    // A delete of a job that another client holds deletes nothing; a delete by its holder does.
    ensures deletion_is_told_none { list_any (is_deletion 1) (happening_in
        (ask 0 (Put 0 0 9 (codes "x")) ∷ ask 1 Reserve ∷ ask 0 (Delete 1) ∷ [])) ≡ false }
    ensures deletion_is_told_one { list_any (is_deletion 1) (happening_in
        (ask 0 (Put 0 0 9 (codes "x")) ∷ ask 1 Reserve ∷ ask 1 (Delete 1) ∷ [])) ≡ true }
{}

#[test]
fn examples_of_runs() {
    undisturbed_jobs();
    disturbed_jobs();
    puts_and_the_drain();
    holder_of_a_job();
    last_id_and_deletes();
}
