//! The real files and the real output, and the text of a schedule.
use causes::{
    FileScripts, MemScripts, MemSink, OutSink, ReadError, Scripts, Sink, WriteFault, read_all,
    write_all,
};
use cell_core::word_of;
use std::io::Write;
use std::test::Fail;
use std::{fs, io};
use turn_lines::{ScheduleError, turns_of};

/// A writer that takes no byte, or fails to flush.
#[derive(Drop)]
struct Stuck {
    takes: usize,
}

impl Write for Stuck {
    fn write(&mut self, buf: &[u8]) -> io::Result<usize> {
        Ok(self.takes.min(buf.len()))
    }

    fn flush(&mut self) -> io::Result<()> {
        Err(io::Error::from(io::ErrorKind::StorageFull))
    }
}

#[test]
fn meets_the_system(rt: HostRuntime) -> Result<(), Fail> {
    let alloc = rt.alloc();
    let text = "CREATE TABLE t (a INT);\nSELECT a FROM t WHERE a BETWEEN 2 AND 3;\n";
    fs::write(&rt, "first.sql", text)?;
    let mut scripts = FileScripts::new(&rt);
    for (name, want, faults) in [
        ("first.sql", Ok(65), 0),
        ("missing.sql", Err(ReadError::ReadFault), 1),
        (".", Err(ReadError::ReadFault), 2),
        ("first.sql", Ok(65), 2),
    ] {
        let got = read_all(alloc, &mut scripts, name).map(|script| script.text().len());
        assert_eq!(rt; got, want, "{name}");
        assert_eq!(rt; scripts.faults(), faults, "{name}");
    }
    fs::remove_file(&rt, "first.sql")?;

    let mut out = OutSink::new(rt.stdout());
    assert_eq!(rt; write_all(&mut out, b"session 1\n"), Ok(()));
    assert_eq!(rt; out.faults(), 0);
    for takes in [0, 1] {
        let mut out = OutSink::new(Stuck { takes });
        assert_eq!(rt;
            write_all(&mut out, b"session 1\n"),
            Err(WriteFault),
            "{takes}"
        );
        assert_eq!(rt; out.faults(), 1);
    }
    Ok(())
}

#[test]
fn calls_are_numbered(rt: HostRuntime) -> Result<(), Fail> {
    let alloc = rt.alloc();
    let mut files = Vec::new(alloc);
    files.push((word_of(alloc, "first.sql")?, Vec::from_slice(alloc, b"1;")?))?;
    let mut scripts = MemScripts::new(files, vec![in alloc; 3]?);
    // A start, the bytes, and the end; or a start that fails.
    for (name, want, calls) in [
        ("first.sql", Err(ReadError::ReadFault), 3),
        ("missing.sql", Err(ReadError::ReadFault), 4),
        ("first.sql", Ok(2), 7),
    ] {
        let got = read_all(alloc, &mut scripts, name).map(|script| script.text().len());
        assert_eq!(rt; got, want, "{name}");
        assert_eq!(rt; scripts.calls(), calls, "{name}");
    }

    let mut out = MemSink::new(alloc, 2, 10, vec![in alloc; 3]?)?;
    for (text, want, calls) in [
        (b"abc".as_slice(), Ok(()), 2),
        (b"de".as_slice(), Err(WriteFault), 3),
        (b"de".as_slice(), Ok(()), 4),
    ] {
        assert_eq!(rt; write_all(&mut out, text), want);
        assert_eq!(rt; out.calls(), calls);
    }
    Ok(())
}

/// Texts, the number of sessions, and the turns or the first bad line.
const TEXTS: [(&str, u32, Result<&[u32], u64>); 14] = [
    ("", 2, Ok(&[])),
    ("1\n2\n", 2, Ok(&[1, 2])),
    ("1", 1, Ok(&[1])),
    ("2\n1\n1", 2, Ok(&[2, 1, 1])),
    ("16\n10\n", 16, Ok(&[16, 10])),
    ("01", 2, Err(1)),
    ("\n", 2, Err(1)),
    ("1\n\n", 2, Err(2)),
    ("1\n0\n3\n", 2, Err(2)),
    ("3", 2, Err(1)),
    ("1\r\n", 2, Err(1)),
    (" 1", 2, Err(1)),
    ("17", 16, Err(1)),
    ("+1", 2, Err(1)),
];

#[test]
fn schedules_are_read(rt: HostRuntime) -> Result<(), Fail> {
    let alloc = rt.alloc();
    for (text, sessions, want) in TEXTS {
        match turns_of(alloc, text, sessions) {
            Ok(turns) => assert_eq!(rt; Ok(turns.as_slice()), want, "{text:?}"),
            Err(ScheduleError::BadLine(number)) => assert_eq!(rt; Err(number), want, "{text:?}"),
            Err(ScheduleError::Memory) => return Err(Fail::from("memory ran out")),
        }
    }
    Ok(())
}
