//! Devices over a reader and a writer in memory that move a few bytes a call, fail at a given call and count
//! their calls. No clause can see how often a device calls its reader or writer: these tests do.
use crate::suite::asserted::equal;
use crate::suite::slow_reader::SlowReader;
use crate::suite::slow_writer::SlowWriter;
use smap_io::{Device, Failed};

/// The number of calls, the failures, whether the device is over, and whether a call came after that.
fn noted<T>(device: &Device<T>) -> (u64, u64, bool, bool) {
    let (calls, failures) = (device.calls(), device.failures());
    (calls, failures, device.is_over(), device.has_gone_on())
}

#[test]
fn a_read_is_one_call_also_where_it_fails(rt: HostRuntime) {
    let mut device = Device::new(SlowReader::new(b"abc", 2, 2));
    let mut buf = [0; 4];
    let some = (device.read(&mut buf), noted(&device));
    let failed = (device.read(&mut buf), noted(&device), buf);
    let rest = (device.read(&mut buf[..1]), noted(&device));
    let end = (device.read(&mut buf), device.ended(), buf);
    equal(&rt, "some", some, (Ok(2), (1, 0, false, false)));
    equal(
        &rt,
        "failed",
        failed,
        (Err(Failed), (2, 1, true, false), *b"ab\0\0"),
    );
    equal(&rt, "rest", rest, (Ok(1), (3, 1, true, true)));
    equal(&rt, "end", end, (Ok(0), true, *b"cb\0\0"));
    equal(&rt, "calls", device.into_inner().calls, 4);
}

#[test]
fn only_a_read_of_nothing_into_room_is_the_end(rt: HostRuntime) {
    let mut device = Device::new(SlowReader::new(b"", 2, 0));
    let mut buf = [0; 4];
    let nowhere = (device.read(&mut buf[..0]), device.ended());
    let end = (device.read(&mut buf), device.ended());
    equal(&rt, "nowhere", nowhere, (Ok(0), false));
    equal(&rt, "end", end, (Ok(0), true));
    equal(&rt, "calls", device.into_inner().calls, 2);
}

#[test]
fn a_write_or_a_flush_is_one_call_also_where_it_fails(rt: HostRuntime) {
    let mut device = Device::new(SlowWriter::new(rt.alloc(), 2, 3));
    let some = (device.write(b"abc"), noted(&device));
    let none = (device.write(b""), noted(&device));
    let failed = (device.write(b"c"), noted(&device));
    let flush = (device.flush(), noted(&device));
    equal(&rt, "some", some, (Ok(2), (1, 0, false, false)));
    equal(&rt, "none", none, (Ok(0), (2, 0, false, false)));
    equal(&rt, "failed", failed, (Err(Failed), (3, 1, true, false)));
    equal(&rt, "flush", flush, (Ok(()), (4, 1, true, true)));
    let writer = device.into_inner();
    equal(&rt, "calls", (writer.calls, writer.flushes), (4, 1));
    let mut full = Device::new(SlowWriter::new(rt.alloc(), 0, 3));
    let answers = (full.write(b"a"), full.write(b""), full.flush());
    equal(&rt, "full", answers, (Err(Failed), Ok(0), Err(Failed)));
    equal(
        &rt,
        "calls",
        (full.failures(), full.into_inner().calls),
        (2, 3),
    );
}
