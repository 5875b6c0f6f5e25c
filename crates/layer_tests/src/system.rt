//! Files and output of the system, once each.

use outside::{Desk, DirDesk, ReadAllStop, Sink, StdSink, read_all};
use std::fs;
use std::test::Fail;

#[test]
fn files_of_the_system_are_written_and_read(rt: HostRuntime) -> Result<(), Fail> {
    let name = "written_by_the_test.txt";
    let mut desk = DirDesk::new(&rt);
    assert_eq!(rt; desk.write(name, b"abc"), Ok(()));
    let list = read_all(rt.alloc(), &mut desk, name, 9)?;
    assert_eq!(rt; list.as_slice(), b"abc".as_slice());

    // Longer than what one read asks for.
    let long_name = "long_file_of_the_test.txt";
    let mut long = vec![in rt.alloc(); b'a'; 70_000]?;
    long.extend_from_slice(b"the end")?;
    assert_eq!(rt; desk.write(long_name, long.as_slice()), Ok(()));
    let list = read_all(rt.alloc(), &mut desk, long_name, 70_007)?;
    assert_eq!(rt; list.as_slice(), long.as_slice());

    // From a place in the middle, after another file; and on in that file, though another has its name by then.
    let mut four = [0u8; 4];
    assert_eq!(rt; desk.read_at(name, 1, &mut four), Ok(Some(2)));
    assert_eq!(rt; desk.read_at(long_name, 69_999, &mut four), Ok(Some(4)));
    assert_eq!(rt; four.as_slice(), b"athe".as_slice());
    fs::remove_file(&rt, long_name)?;
    assert_eq!(rt; desk.read_at(long_name, 70_003, &mut four), Ok(Some(4)));
    assert_eq!(rt; four.as_slice(), b" end".as_slice());

    fs::remove_file(&rt, name)?;
    assert_eq!(rt;
        read_all(rt.alloc(), &mut desk, name, 9).err(),
        Some(ReadAllStop::NoFile)
    );
    Ok(())
}

#[test]
fn standard_output_takes_what_is_put(rt: HostRuntime) {
    let mut sink = StdSink::new(&rt);
    assert_eq!(rt; sink.put(b""), Ok(()));
    assert_eq!(rt; sink.put(b"a line\n"), Ok(()));
}
