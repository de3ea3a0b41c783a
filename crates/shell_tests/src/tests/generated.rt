//! The run of the sample scripts of a number.
use super::run;
use std::test::Fail;

/// The output for the scripts of 1.
const OF_ONE: &str =
    "generated 1\npool\nentries 501\nbytes 3334016\npeak 3334016\nlooks 600\nexact 99\n\
    within 47\nacross 22\nmiss 432\ntaken 501\nthere 0\nstale 0\norphan 0\nnocredit 0\nnoroom 0\nevicted 0\n\
    dropped 0\ncarried 0\nwork 1968570\nevents 1322\n";

#[test]
fn the_scripts_of_one(rt: HostRuntime) -> Result<(), Fail> {
    let (status, at, text) = run(&rt, rt.alloc(), &["generate", "1"], b"", (0, 0))?;
    assert_eq!(rt; (status, at), (0, 0));
    assert_eq!(rt; text.as_slice(), OF_ONE.as_bytes());
    Ok(())
}

#[test]
fn a_failing_write_and_words_outside_the_grammar(rt: HostRuntime) -> Result<(), Fail> {
    let alloc = rt.alloc();
    let (status, at, text) = run(&rt, alloc, &["generate", "1", "--"], b"", (0, 2))?;
    assert_eq!(rt; (status, at), (3, 0));
    assert_eq!(rt; text.as_slice(), b"generated ".as_slice());
    for words in [["generate", "0"], ["generate", "--"], ["generate", "a.sql"]] {
        let (status, at, text) = run(&rt, alloc, &words, b"", (0, 0))?;
        assert_eq!(rt; (status, at), (1, 0));
        assert_eq!(rt; text.len(), 0);
    }
    Ok(())
}
