//! Worked sessions of one client. The expected bytes follow from docs/PROTOCOL.md, not from a run.
//! No time passes in a session: a clock that fails or goes backwards counts as one that stands
//! still.

/// The first worked sessions: what each shows, what the client sends, what it receives, and how its
/// connection ends.
pub static WORKED: &str = "first_cycle: a job from its put to its delete\
    |put 5 0 10 3~abc~reserve~delete 1~quit~\
    |INSERTED 1~RESERVED 1 3~abc~DELETED~|quit

    empty_input: nothing is sent\
    |||end

    deadline_soon_behind_two_leases: two leases of one second each, and a third reserve\
    |put 0 0 1 0~~put 0 0 1 1~a~reserve~reserve~reserve~\
    |INSERTED 1~INSERTED 2~RESERVED 1 0~~RESERVED 2 1~a~DEADLINE_SOON~|end

    bad_body_end_then_wait: a body without CR LF after it is consumed whole, and a timeout of 0 \
    seconds ends at once\
    |put 0 0 1 2~abXYreserve-with-timeout 0~|EXPECTED_CRLF~TIMED_OUT~|end

    body_too_big: a body that is one byte too big\
    |put 0 0 1 65536~ + times 65536 x + ~list-tube-used~|JOB_TOO_BIG~USING default~|end

    body_too_big: the largest body\
    |put 0 0 1 65535~ + times 65535 x + ~list-tube-used~|INSERTED 1~USING default~|end

    bad_lines: lines that are not commands\
    |PUT~put 1~use -a~peek 4294967296~|UNKNOWN_COMMAND~BAD_FORMAT~BAD_FORMAT~NOT_FOUND~|end

    least_across_tubes: the least job of all watched tubes, by priority and then by id\
    |watch a~put 7 0 9 1~x~use a~put 3 0 9 1~y~use default~put 3 0 9 1~z~reserve~reserve~reserve~\
    |WATCHING 2~INSERTED 1~USING a~INSERTED 2~USING default~INSERTED 3~RESERVED 2 1~y~\
    RESERVED 3 1~z~RESERVED 1 1~x~|end

    bury_and_kick_order: buried jobs are kicked before delayed ones\
    |put 0 0 9 1~x~put 0 0 9 1~y~put 0 100 9 1~z~reserve~reserve~bury 2 0~bury 1 0~peek-buried~\
    kick 5~kick 5~\
    |INSERTED 1~INSERTED 2~INSERTED 3~RESERVED 1 1~x~RESERVED 2 1~y~BURIED~BURIED~FOUND 2 1~y~\
    KICKED 2~KICKED 1~|end

    watch_lists: the list of watched tubes\
    |ignore default~ignore b~watch b~watch b~ignore default~list-tubes-watched~list-tubes~\
    |NOT_IGNORED~WATCHING 1~WATCHING 2~WATCHING 2~WATCHING 1~OK 8~---^- b^~\
    OK 18~---^- b^- default^~|end

    job_statistics: the statistics of a job, with input that arrives byte by byte\
    |p + u + t +   + 0 +   + 0 +   + 1 +   + 1 + \r + ^ + a + \r + ^ \
    + s + t + a + t + s + - + j + o + b +   + 1 + \r + ^\
    |INSERTED 1~OK 135~---^id: 1^tube: default^state: ready^pri: 0^age: 0^delay: 0^ttr: 1^\
    time-left: 0^reserves: 0^timeouts: 0^releases: 0^buries: 0^kicks: 0^~|end

    paused_tube: a paused tube hands out no job to a reserve, but reserve-job still works\
    |put 2 0 9 1~x~pause-tube default 60~reserve-with-timeout 0~peek-ready~reserve-job 1~\
    reserve-job 1~pause-tube b 1~\
    |INSERTED 1~PAUSED~TIMED_OUT~FOUND 1 1~x~RESERVED 1 1~x~NOT_FOUND~NOT_FOUND~|end

    release_keeps_the_id: a released job keeps its id\
    |put 4 0 9 1~x~put 4 0 9 1~y~reserve~release 1 5 0~reserve~release 1 0 0~delete 1~\
    |INSERTED 1~INSERTED 2~RESERVED 1 1~x~RELEASED~RESERVED 2 1~y~NOT_FOUND~DELETED~|end

    longest_line: the longest line\
    |peek  + times 216 0 + 1~|NOT_FOUND~|end

    longest_line: a line that is one byte longer\
    |peek  + times 217 0 + 1~|BAD_FORMAT~|end

    longest_tube_name: the longest tube name\
    |use  + times 200 a + ~|USING  + times 200 a + ~|end

    longest_tube_name: a name that is one byte longer\
    |use  + times 201 a + ~|BAD_FORMAT~|end

    truncated_and_after_quit: an incomplete body at the end of the input gets no answer\
    |put 0 0 1 5~ab||end

    truncated_and_after_quit: nor does an incomplete line\
    |list-tube-used||end

    truncated_and_after_quit: commands after a quit are ignored\
    |quit~stats~||quit

    end_behind_a_wait: the input ends while a reserve waits\
    |reserve~|TIMED_OUT~|end

    odd_spaces_and_numbers: extra spaces, and a number that is too large\
    |~reserve ~ reserve~put 0 0 4294967296 1~\
    |UNKNOWN_COMMAND~BAD_FORMAT~UNKNOWN_COMMAND~BAD_FORMAT~|end";

/// Further worked sessions, with the same columns. Then come its room and the readings of the clock,
/// which are left out, the limit of body sizes, and the limit on jobs, if they are not the usual
/// ones.
pub static COMMANDS: &str =
    "bad_end_swallowed: a body without CR LF after it, and nothing to reserve\
    |put 0 0 1 2~abXYreserve~|EXPECTED_CRLF~TIMED_OUT~|end

    delete_twice: a job can be deleted once\
    |put 0 0 1 1~a~delete 2~delete 1~delete 1~|INSERTED 1~NOT_FOUND~DELETED~NOT_FOUND~|end

    small_limit: bodies of at most two bytes\
    |put 0 0 1 3~abc~put 0 0 1 2~ab~|JOB_TOO_BIG~INSERTED 1~|end|||2

    kick_in_turns: two buried jobs, then a delayed one, then none\
    |put 0 0 9 1~x~put 0 0 9 1~y~put 0 100 9 1~z~reserve~reserve~bury 2 0~bury 1 0~\
    kick 5~kick 5~kick 5~\
    |INSERTED 1~INSERTED 2~INSERTED 3~RESERVED 1 1~x~RESERVED 2 1~y~BURIED~BURIED~\
    KICKED 2~KICKED 1~KICKED 0~|end

    peek_delayed_first_due: the delayed job that is due first\
    |put 0 9 9 1~x~put 0 5 9 1~y~peek-delayed~|INSERTED 1~INSERTED 2~FOUND 2 1~y~|end

    tube_statistics: a job of priority 1023 is urgent, and one of 1024 is not\
    |put 1023 0 9 1~x~put 1024 0 9 1~y~reserve~delete 1~stats-tube default~\
    |INSERTED 1~INSERTED 2~RESERVED 1 1~x~DELETED~OK 265~---^name: default^\
    current-jobs-urgent: 0^current-jobs-ready: 1^current-jobs-reserved: 0^\
    current-jobs-delayed: 0^current-jobs-buried: 0^total-jobs: 2^current-using: 1^\
    current-watching: 1^current-waiting: 0^cmd-delete: 1^cmd-pause-tube: 0^pause: 0^\
    pause-time-left: 0^~|end

    tube_counts_from_zero: a tube that comes back counts from 0\
    |use t~put 0 0 9 0~~use default~delete 1~stats-tube t~use t~put 0 0 9 0~~stats-tube t~\
    |USING t~INSERTED 1~USING default~DELETED~NOT_FOUND~USING t~INSERTED 2~OK 259~---^name: t^\
    current-jobs-urgent: 1^current-jobs-ready: 1^current-jobs-reserved: 0^\
    current-jobs-delayed: 0^current-jobs-buried: 0^total-jobs: 1^current-using: 1^\
    current-watching: 0^current-waiting: 0^cmd-delete: 0^cmd-pause-tube: 0^pause: 0^\
    pause-time-left: 0^~|end

    limit_of_one: one job at most, reserved or not\
    |put 0 0 9 1~x~put 0 0 9 1~y~reserve~put 0 0 9 1~z~delete 1~put 0 0 9 1~w~\
    |INSERTED 1~OUT_OF_MEMORY~RESERVED 1 1~x~OUT_OF_MEMORY~DELETED~INSERTED 2~|end||||1

    the tubes of a new server\
    |list-tubes~|OK 14~---^- default^~|end

    a tube of a new server\
    |stats-tube default~\
    |OK 265~---^name: default^current-jobs-urgent: 0^current-jobs-ready: 0^\
    current-jobs-reserved: 0^current-jobs-delayed: 0^current-jobs-buried: 0^total-jobs: 0^\
    current-using: 1^current-watching: 1^current-waiting: 0^cmd-delete: 0^cmd-pause-tube: 0^\
    pause: 0^pause-time-left: 0^~|end

    a new server\
    |stats~\
    |OK 267~---^current-jobs-urgent: 0^current-jobs-ready: 0^current-jobs-reserved: 0^\
    current-jobs-delayed: 0^current-jobs-buried: 0^job-timeouts: 0^total-jobs: 0^\
    max-job-size: 65535^current-tubes: 1^current-connections: 1^current-waiting: 0^\
    total-connections: 1^draining: false^~|end";
