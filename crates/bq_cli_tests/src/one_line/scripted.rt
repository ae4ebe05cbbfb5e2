//! Sessions in which the client does one thing after another, or the clock advances.

/// The scripted sessions: what each shows, what the client does, what it receives, how its
/// connection ends, its room, and the readings of the clock.
pub static SCRIPTED: &str = "timed_wait_by_the_clock: a wait of a second ends by the clock, \
    although another command is buffered\
    |reserve-with-timeout 1~list-tube-used~|TIMED_OUT~USING default~|end|1000\
    |0 1000 2000 3000 4000 5000 6000 7000 8000 9000 10000 11000 12000 13000 14000 15000 16000 \
    17000 18000 19000 20000

    a clock that goes backwards or can't be read stands still: the job with a delay of 1 second is \
    not due\
    |put 0 1 9 1~x~reserve~|INSERTED 1~TIMED_OUT~|end|1000|1000 999 fails 0

    the client waits for its answers and the clock advances: a delayed job comes when it is due\
    |after 0 + put 0 1 9 1~ + x~reserve~ + after 29 + delete 1~\
    |INSERTED 1~RESERVED 1 1~x~DELETED~|end|1000\
    |0 fails 300 fails 600 fails 900 fails 1200 fails 1500

    the age of a job is in whole seconds; the connection, the put and the two questions read the \
    clock once each, and nothing is due that would read it again\
    |put 0 0 9 1~x~stats-job 1~stats-job 1~\
    |INSERTED 1~OK 135~---^id: 1^tube: default^state: ready^pri: 0^age: 1^delay: 0^ttr: 9^\
    time-left: 0^reserves: 0^timeouts: 0^releases: 0^buries: 0^kicks: 0^~\
    OK 135~---^id: 1^tube: default^state: ready^pri: 0^age: 2^delay: 0^ttr: 9^\
    time-left: 0^reserves: 0^timeouts: 0^releases: 0^buries: 0^kicks: 0^~|end|1000\
    |0 500 2499 2500

    a write is cut short at the end of the room, and that ends the line\
    |put 0 0 9 1~x~|INSER|write fault|5|0

    what came before a read fault is answered\
    |put 0 0 9 1~x~put +  + fails|INSERTED 1~|read fault|1000|0

    a read fault also ends a line whose reserve was not answered\
    |reserve~ + fails||read fault|1000|0";
