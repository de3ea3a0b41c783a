//! A script that is cut after each of its bytes. The replies to what is left are those of an
//! independent implementation (`CONTRIBUTING.md`).
use super::played::run_line;
use cell_core::Memory;
use std::alloc::Global;
use std::sync::Wait;
use std::test::Fail;
use std::thread::Threads;

/// A table of orders, and changes and queries of it.
const SCRIPT: &str =
    "CREATE TABLE lineitem (l_orderkey BIGINT NOT NULL, l_quantity INTEGER NOT NULL, l_extendedprice BIGINT NOT NULL, l_discount INTEGER NOT NULL, l_shipdate DATE NOT NULL, l_comment VARCHAR(44));\n\
     INSERT INTO lineitem VALUES (1, 17, 2116823, 4, DATE '1996-03-13', 'a'), (2, 20, 1000000, 6, DATE '1994-05-01', 'b'), (3, 23, 500000, 5, DATE '1994-12-31', 'c'), (4, 24, 700000, 6, DATE '1994-06-01', 'd');\n\
     SELECT SUM(l_extendedprice * l_discount) AS revenue FROM lineitem WHERE l_shipdate >= DATE '1994-01-01' AND l_shipdate < DATE '1995-01-01' AND l_discount BETWEEN 5 AND 7 AND l_quantity < 24;\n\
     SELECT l_discount, COUNT(*) FROM lineitem GROUP BY l_discount HAVING COUNT(*) >= 1 ORDER BY 2 DESC, 1 LIMIT 2;\n\
     UPDATE lineitem SET l_quantity = l_quantity + 1 WHERE l_orderkey <> 1;\n\
     DELETE FROM lineitem WHERE l_quantity IN (17, 25);\n\
     SELECT l_orderkey, l_shipdate FROM lineitem;\n";

/// The replies to the statements of the script.
const REPLIES: [&str; 7] = [
    "1 ok\n",
    "2 ok 4\n",
    "3 rows 1\n8500000\n",
    "4 rows 2\n6,2\n4,1\n",
    "5 ok 3\n",
    "6 ok 2\n",
    "7 rows 2\n2,1994-05-01\n3,1994-12-31\n",
];

/// The least length of a part, the least length above, and the reply to what is after the last `;` of
/// parts of these lengths; nothing where that is no statement.
const RESTS: &[(usize, usize, &str)] = &[
    (0, 1, ""),
    (1, 190, "1 refused 1 syntax\n"),
    (190, 191, "1 ok\n"),
    (191, 193, ""),
    (193, 263, "2 refused 1 syntax\n"),
    (263, 264, "2 ok 1\n"),
    (264, 308, "2 refused 1 syntax\n"),
    (308, 309, "2 ok 2\n"),
    (309, 352, "2 refused 1 syntax\n"),
    (352, 353, "2 ok 3\n"),
    (353, 396, "2 refused 1 syntax\n"),
    (396, 397, "2 ok 4\n"),
    (397, 399, ""),
    (399, 406, "3 refused 1 syntax\n"),
    (406, 408, "3 refused 2 unsupported SELECT WITHOUT FROM\n"),
    (408, 438, "3 refused 1 syntax\n"),
    (438, 441, "3 refused 2 unsupported SELECT WITHOUT FROM\n"),
    (441, 443, "3 refused 1 syntax\n"),
    (443, 451, "3 refused 2 unsupported SELECT WITHOUT FROM\n"),
    (451, 456, "3 refused 1 syntax\n"),
    (456, 457, "3 refused 3 no such table l\n"),
    (457, 458, "3 refused 3 no such table li\n"),
    (458, 459, "3 refused 3 no such table lin\n"),
    (459, 460, "3 refused 3 no such table line\n"),
    (460, 461, "3 refused 3 no such table linei\n"),
    (461, 462, "3 refused 3 no such table lineit\n"),
    (462, 463, "3 refused 3 no such table lineite\n"),
    (463, 469, "3 rows 1\n21167292\n"),
    (469, 485, "3 refused 1 syntax\n"),
    (485, 486, "3 refused 5 no such column d\n"),
    (486, 487, "3 refused 5 no such column da\n"),
    (487, 488, "3 refused 5 no such column dat\n"),
    (488, 501, "3 refused 1 syntax\n"),
    (501, 503, "3 rows 1\n21167292\n"),
    (503, 520, "3 refused 1 syntax\n"),
    (520, 521, "3 refused 5 no such column d\n"),
    (521, 522, "3 refused 5 no such column da\n"),
    (522, 523, "3 refused 5 no such column dat\n"),
    (523, 536, "3 refused 1 syntax\n"),
    (536, 538, "3 rows 1\n12700000\n"),
    (538, 567, "3 refused 1 syntax\n"),
    (567, 569, "3 rows 1\n12700000\n"),
    (569, 586, "3 refused 1 syntax\n"),
    (586, 587, "3 rows 1\n\\N\n"),
    (587, 588, "3 rows 1\n8500000\n"),
    (588, 590, ""),
    (590, 597, "4 refused 1 syntax\n"),
    (597, 607, "4 refused 2 unsupported SELECT WITHOUT FROM\n"),
    (607, 609, "4 refused 1 syntax\n"),
    (609, 613, "4 refused 2 unsupported SELECT WITHOUT FROM\n"),
    (613, 616, "4 refused 1 syntax\n"),
    (616, 621, "4 refused 2 unsupported SELECT WITHOUT FROM\n"),
    (621, 623, "4 refused 1 syntax\n"),
    (623, 624, "4 refused 3 no such table l\n"),
    (624, 625, "4 refused 3 no such table li\n"),
    (625, 626, "4 refused 3 no such table lin\n"),
    (626, 627, "4 refused 3 no such table line\n"),
    (627, 628, "4 refused 3 no such table linei\n"),
    (628, 629, "4 refused 3 no such table lineit\n"),
    (629, 630, "4 refused 3 no such table lineite\n"),
    (630, 636, "4 refused 14 not grouped l_discount\n"),
    (636, 641, "4 refused 1 syntax\n"),
    (641, 642, "4 refused 5 no such column l\n"),
    (642, 643, "4 refused 5 no such column l_\n"),
    (643, 644, "4 refused 5 no such column l_d\n"),
    (644, 645, "4 refused 5 no such column l_di\n"),
    (645, 646, "4 refused 5 no such column l_dis\n"),
    (646, 647, "4 refused 5 no such column l_disc\n"),
    (647, 648, "4 refused 5 no such column l_disco\n"),
    (648, 649, "4 refused 5 no such column l_discou\n"),
    (649, 650, "4 refused 5 no such column l_discoun\n"),
    (650, 652, "4 rows 3\n4,1\n5,1\n6,2\n"),
    (652, 671, "4 refused 1 syntax\n"),
    (671, 673, "4 rows 3\n4,1\n5,1\n6,2\n"),
    (673, 682, "4 refused 1 syntax\n"),
    (682, 684, "4 rows 3\n4,1\n5,1\n6,2\n"),
    (684, 687, "4 refused 1 syntax\n"),
    (687, 688, "4 rows 3\n6,2\n4,1\n5,1\n"),
    (688, 690, "4 refused 1 syntax\n"),
    (690, 692, "4 rows 3\n6,2\n4,1\n5,1\n"),
    (692, 698, "4 refused 1 syntax\n"),
    (698, 699, "4 rows 2\n6,2\n4,1\n"),
    (699, 701, ""),
    (701, 734, "5 refused 1 syntax\n"),
    (734, 735, "5 refused 5 no such column l\n"),
    (735, 736, "5 refused 5 no such column l_\n"),
    (736, 737, "5 refused 5 no such column l_q\n"),
    (737, 738, "5 refused 5 no such column l_qu\n"),
    (738, 739, "5 refused 5 no such column l_qua\n"),
    (739, 740, "5 refused 5 no such column l_quan\n"),
    (740, 741, "5 refused 5 no such column l_quant\n"),
    (741, 742, "5 refused 5 no such column l_quanti\n"),
    (742, 743, "5 refused 5 no such column l_quantit\n"),
    (743, 745, "5 ok 4\n"),
    (745, 747, "5 refused 1 syntax\n"),
    (747, 749, "5 ok 4\n"),
    (749, 769, "5 refused 1 syntax\n"),
    (769, 770, "5 ok 3\n"),
    (770, 772, ""),
    (772, 784, "6 refused 1 syntax\n"),
    (784, 785, "6 refused 3 no such table l\n"),
    (785, 786, "6 refused 3 no such table li\n"),
    (786, 787, "6 refused 3 no such table lin\n"),
    (787, 788, "6 refused 3 no such table line\n"),
    (788, 789, "6 refused 3 no such table linei\n"),
    (789, 790, "6 refused 3 no such table lineit\n"),
    (790, 791, "6 refused 3 no such table lineite\n"),
    (791, 793, "6 ok 4\n"),
    (793, 820, "6 refused 1 syntax\n"),
    (820, 821, "6 ok 2\n"),
    (821, 823, ""),
    (823, 830, "7 refused 1 syntax\n"),
    (830, 840, "7 refused 2 unsupported SELECT WITHOUT FROM\n"),
    (840, 842, "7 refused 1 syntax\n"),
    (842, 856, "7 refused 2 unsupported SELECT WITHOUT FROM\n"),
    (856, 858, "7 refused 1 syntax\n"),
    (858, 859, "7 refused 3 no such table l\n"),
    (859, 860, "7 refused 3 no such table li\n"),
    (860, 861, "7 refused 3 no such table lin\n"),
    (861, 862, "7 refused 3 no such table line\n"),
    (862, 863, "7 refused 3 no such table linei\n"),
    (863, 864, "7 refused 3 no such table lineit\n"),
    (864, 865, "7 refused 3 no such table lineite\n"),
    (865, 866, "7 rows 2\n2,1994-05-01\n3,1994-12-31\n"),
    (866, 868, ""),
];

/// The output for a part of the script, up to the number of changes.
fn wanted(alloc: Global, part: &[u8], rest: &str) -> Result<String, Memory> {
    let whole = part.iter().filter(|byte| **byte == b';').count();
    let mut text = format!(in alloc; "session 1 a.sql\n")?;
    for reply in REPLIES.iter().take(whole) {
        text.push_str(reply)?;
    }
    text.push_str(rest)?;
    text.push_str("history ")?;
    Ok(text)
}

/// Whether a part of the script has its replies and, after its last `;`, this one.
fn is_replied<R: Threads + Wait + Sync>(
    rt: &R,
    alloc: Global,
    part: &[u8],
    rest: &str,
) -> Result<bool, Memory> {
    let want = wanted(alloc, part, rest)?;
    let files = [("order", b"".as_slice()), ("a.sql", part)];
    let (status, _, text) = run_line(rt, alloc, "replay order a.sql", &files)?;
    Ok(status == 0 && text.as_slice().starts_with(want.as_bytes()))
}

/// The first of the lengths for which a part of the script has other replies.
fn first_wrong<R: Threads + Wait + Sync>(
    rt: &R,
    alloc: Global,
    least: usize,
    above: usize,
    rest: &str,
) -> Result<Option<usize>, Memory> {
    for length in least..above {
        let Some(part) = SCRIPT.as_bytes().get(..length) else {
            return Ok(Some(length));
        };
        if !is_replied(rt, alloc, part, rest)? {
            return Ok(Some(length));
        }
    }
    Ok(None)
}

#[test]
fn a_script_is_cut_after_each_byte(rt: HostRuntime) -> Result<(), Fail> {
    let alloc = rt.alloc();
    let mut next = 0usize;
    for (least, above, rest) in RESTS {
        assert_eq!(rt; *least, next);
        let wrong = first_wrong(&rt, alloc, *least, *above, rest)?;
        assert_eq!(rt; wrong, None);
        next = *above;
    }
    assert_eq!(rt; next, SCRIPT.len().saturating_add(1));
    Ok(())
}
