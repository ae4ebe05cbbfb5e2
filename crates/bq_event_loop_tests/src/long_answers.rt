//! Long answers in pieces, and clients that read nothing for a while without holding up others.

use crate::runs::come_out;
use crate::series::Series;

// A body that is written with its head, one that is first joined with it, and one that is too long
// for that.
static BODIES: &str = "put 0 0 60 200~ + times 200 x + ~reserve~ + after 230 + delete 1~ \
    > INSERTED 1~RESERVED 1 200~ + times 200 x + ~DELETED~

    put 0 0 60 3000~ + times 3000 x + ~reserve~ + after 3031 + delete 1~ \
    > INSERTED 1~RESERVED 1 3000~ + times 3000 x + ~DELETED~

    put 0 0 60 60000~ + times 60000 x + ~reserve~ + after 60032 + delete 1~ \
    > INSERTED 1~RESERVED 1 60000~ + times 60000 x + ~DELETED~";

// One client receives nothing until the others have received everything.
static STOPS: &str = "stops 60 + list-tube-used~use a~ > USING default~USING a~
    use b~list-tube-used~use c~list-tube-used~ > USING b~USING b~USING c~USING c~
    watch b~watch c~ > WATCHING 2~WATCHING 3~

    use b~list-tube-used~use c~list-tube-used~ > USING b~USING b~USING c~USING c~
    stops 60 + put 0 0 60 60000~ + times 60000 x + ~peek 1~peek 1~peek 1~ \
    > INSERTED 1~FOUND 1 60000~ + times 60000 x + ~FOUND 1 60000~ + times 60000 x + \
    ~FOUND 1 60000~ + times 60000 x + ~
    watch b~watch c~ > WATCHING 2~WATCHING 3~";

#[test]
fn answers_in_parts(rt: HostRuntime) {
    assert!(rt;
        come_out(rt.alloc(), BODIES, Series::Long) && come_out(rt.alloc(), STOPS, Series::Rules)
    );
}
