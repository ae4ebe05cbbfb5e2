//! Runs of several doors with known results, in each order. What each client receives does not
//! depend on the order.

use crate::runs::come_out;
use crate::series::Series;
use bq_scenes::worked::EXAMPLES;

/// Runs with known results, besides those that every run has to pass:
///
/// - A job goes to the client that watches its tube, even if another has waited longer.
/// - A job that another client holds: it cannot be deleted, and is handed out again when that
///   client disconnects.
/// - A client that holds two jobs disconnects, and each job is the answer to another client in the
///   same step.
/// - More clients than doors, one after another. One quits, and another leaves bytes unread.
pub static MORE: &str = "use b~put 0 0 9 1~p~use a~put 0 0 9 1~q~ \
    > USING b~INSERTED 1~USING a~INSERTED 2~
    watch a~ignore default~reserve~ + after 41 > WATCHING 2~WATCHING 1~RESERVED 2 1~q~
    watch a~watch b~ignore default~reserve~ + after 53 \
    > WATCHING 2~WATCHING 3~WATCHING 2~RESERVED 1 1~p~

    put 0 0 9 1~x~ + all 29 + delete 1~peek 1~ > INSERTED 1~NOT_FOUND~FOUND 1 1~x~
    all 12 + reserve~ + all 54 > RESERVED 1 1~x~
    all 29 + reserve~ + after 17 > RESERVED 1 1~x~

    put 0 0 9 1~x~use b~put 0 0 9 1~y~watch b~reserve~reserve~ + all 103 + quit~ \
    > INSERTED 1~USING b~INSERTED 2~WATCHING 2~RESERVED 1 1~x~RESERVED 2 1~y~ > quit
    all 79 + reserve~ + after 17 > RESERVED 1 1~x~
    all 79 + watch b~ignore default~reserve~ + after 41 > WATCHING 2~WATCHING 1~RESERVED 2 1~y~

    use a~quit~list-tube-used~ > USING a~ > quit
    & list-tube-used~use b > USING default~
    & list-tube-used~ > USING default~
    list-tube-used~ > USING default~
    & quit~ >  > quit";

#[test]
fn worked_runs(rt: HostRuntime) {
    assert!(rt;
        come_out(rt.alloc(), EXAMPLES, Series::Rules) && come_out(rt.alloc(), MORE, Series::Rules)
    );
}
