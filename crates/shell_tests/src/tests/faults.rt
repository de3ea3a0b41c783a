//! A source and a sink that fail at one call, for each of their calls.
ghost use Rattle.std.specs.Prelude.{◌≡◌, ◌<◌};

use super::THREE;
use bat_kernel::Kernel;
use causes::{MemScripts, MemSink, Scripts, Sink};
use cell_core::{Memory, Steps, word_of};
use sql_shell::top;
use std::alloc::Global;
use std::marker::Brand;
use std::sync::Wait;
use std::sync::ledger::{Blank, Ledger};
use std::test::Fail;
use std::thread::Threads;

/// More than the calls of a run.
const MOST_CALLS: u64 = 100;

/// The output for the script of three rows, that of the worked session of the README.
const SERVED: &str = "session 1 a.sql\n1 ok\n2 ok 3\n3 rows 2\n2\n3\nhistory 2\n\
    1 1 1 CREATE TABLE t (a INT);\n2 1 2 INSERT INTO t VALUES (3), (1), (2);\npool\nentries 6\n\
    bytes 512\npeak 512\nlooks 6\nexact 0\nwithin 0\nacross 0\nmiss 6\ntaken 6\nthere 0\nstale 0\n\
    orphan 0\nnocredit 0\nnoroom 0\nevicted 0\ndropped 0\ncarried 0\nwork 27\nevents 16\n";

/// What came of a run: its status, the faults of the source and of the sink, and the output.
#[derive(Drop)]
struct Failing {
    status: u8,
    faults: (u64, u64),
    text: Vec<u8>,
}

/// A replay of the script in which the calls with these numbers fail, of the source and of the sink.
fn run_failing<L: Ledger, R: Threads + Wait + Sync>(
    rt: &R,
    alloc: Global,
    failing: (u64, u64),
    blank: Blank,
) -> Result<Failing, Memory>
    requires name { blank.name ≡ L.name }
    requires parts { blank.parts ≡ L.parts }
    requires some { 0 < blank.parts }
{
    let mut words = Vec::new(alloc);
    for word in ["replay", "order", "a.sql"] {
        words.push(word_of(alloc, word)?)?;
    }
    let files = vec![in alloc;
        (word_of(alloc, "order")?, Vec::new(alloc)),
        (
            word_of(alloc, "a.sql")?,
            Vec::from_slice(alloc, THREE.as_bytes())?
        ),
    ]?;
    let mut scripts = MemScripts::new(files, vec![in alloc; failing.0]?);
    let mut out = MemSink::new(alloc, 10, 1000, vec![in alloc; failing.1]?)?;
    let mut steps = Steps::<L>::new(blank);
    let served = top(
        rt,
        alloc,
        words.as_slice(),
        &mut scripts,
        &mut out,
        &Kernel::new(),
        &mut steps,
    );
    Ok(Failing {
        status: served.status,
        faults: (scripts.faults(), out.faults()),
        text: Vec::from_slice(alloc, out.held())?,
    })
}

/// The same with a counter of its own.
fn run_here<R: Threads + Wait + Sync>(
    rt: &R,
    alloc: Global,
    failing: (u64, u64),
) -> Result<Failing, Memory> {
    run_failing::<Brand, _>(rt, alloc, failing, Blank::new(1))
}

/// How many bytes are written where this call of the sink fails: it takes 10 at a call.
fn written_before(call: u64) -> usize {
    (call as usize).saturating_sub(1).saturating_mul(10)
}

#[test]
fn the_source_fails_at_each_call(rt: HostRuntime) -> Result<(), Fail> {
    let alloc = rt.alloc();
    for call in 1..MOST_CALLS {
        let run = run_here(&rt, alloc, (call, 0))?;
        if run.faults == (0, 0) {
            assert_eq!(rt; run.status, 0);
            assert_eq!(rt; run.text.as_slice(), SERVED.as_bytes());
            return Ok(());
        }
        assert_eq!(rt; run.faults, (1, 0), "call {call}");
        assert_eq!(rt; run.status, 2, "call {call}");
        assert_eq!(rt; run.text.len(), 0, "call {call}");
    }
    Err(Fail::from("no run was without a fault"))
}

#[test]
fn the_sink_fails_at_each_call(rt: HostRuntime) -> Result<(), Fail> {
    let alloc = rt.alloc();
    for call in 1..MOST_CALLS {
        let run = run_here(&rt, alloc, (0, call))?;
        assert!(rt;
            SERVED.as_bytes().starts_with(run.text.as_slice()),
            "call {call}"
        );
        if run.faults == (0, 0) {
            assert_eq!(rt; run.status, 0);
            assert_eq!(rt; run.text.len(), SERVED.len());
            return Ok(());
        }
        assert_eq!(rt; run.faults, (0, 1), "call {call}");
        assert_eq!(rt; run.status, 3, "call {call}");
        assert_eq!(rt; run.text.len(), written_before(call), "call {call}");
    }
    Err(Fail::from("no run was without a fault"))
}
