//! Runs over doors whose results were worked out by hand.

/// The runs, in the notation of module `table`:
///
/// - No clients.
/// - The job of a client that disconnects, for the next client of its door, and of another door.
/// - The job of a connection with a write error.
/// - A wait for a job from another door.
/// - Only the second door has a client.
/// - A read error: after an answer, during a wait, after the answer to a wait, and after a put.
pub static EXAMPLES: &str = "no clients
    no clients

    put 0 0 9 1~x~reserve~ > INSERTED 1~RESERVED 1 1~x~
    & reserve~quit~ > RESERVED 1 1~x~ > quit

    put 0 0 9 1~x~reserve~ + after 29 > INSERTED 1~RESERVED 1 1~x~
    reserve~ + after 17 > RESERVED 1 1~x~

    room 20 + put 0 0 9 1~x~reserve~ > INSERTED 1~RESERVED > write fault
    & reserve~quit~ > RESERVED 1 1~x~ > quit

    reserve~ + after 19 > RESERVED 1 3~abc~
    put 5 0 10 3~abc~ > INSERTED 1~

    no clients
    put 5 0 10 3~abc~ > INSERTED 1~

    put 0 0 9 1~x~put + fails > INSERTED 1~ > read fault

    reserve~ + fails >  > read fault

    reserve~ + after 19 + fails > RESERVED 1 3~abc~ > read fault
    put 5 0 10 3~abc~ > INSERTED 1~

    reserve~ + after 19 > RESERVED 1 3~abc~
    put 5 0 10 3~abc~ + fails > INSERTED 1~ > read fault";
