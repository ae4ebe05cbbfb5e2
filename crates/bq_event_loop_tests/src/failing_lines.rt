//! Connections that fail while others are served without damage. Only the last answer of a
//! connection that fails may be cut off. The client of that connection sends 35 bytes and would
//! receive 38.

use crate::runs::come_out;
use crate::series::Series;

static WRITE_FAILS: &str = "put 0 0 9 1~x~reserve~delete 1~ \
    > INSERTED 1~RESERVED 1 1~x~DELETED~ > write fault
    use b~watch b~list-tube-used~ > USING b~WATCHING 2~USING b~";

static ALL_WRITTEN: &str = "put 0 0 9 1~x~reserve~delete 1~ > INSERTED 1~RESERVED 1 1~x~DELETED~
    use b~watch b~list-tube-used~ > USING b~WATCHING 2~USING b~";

static READ_FAILS: &str = "put 0 0 9 1~x~reserve~delete 1~ \
    > INSERTED 1~RESERVED 1 1~x~DELETED~ > read fault
    use b~watch b~list-tube-used~ > USING b~WATCHING 2~USING b~";

#[test]
fn connections_fail_after_each_byte(rt: HostRuntime) {
    assert!(rt;
        come_out(rt.alloc(), WRITE_FAILS, Series::WriteFails(38))
            && come_out(rt.alloc(), ALL_WRITTEN, Series::WriteAll(38))
            && come_out(rt.alloc(), READ_FAILS, Series::ReadFails(36))
    );
}
