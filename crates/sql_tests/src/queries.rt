//! Random queries over two tables, the same at every run.
ghost use Rattle.std.specs.Prelude.{◌<◌};

use cell_core::Memory;
use std::alloc::Global;

/// The tables that are queried.
pub(crate) const TABLES: [&str; 2] = [
    "CREATE TABLE t (a INT, b INT NOT NULL, c TEXT, d DATE)",
    "CREATE TABLE u (e INT, f VARCHAR(9) DEFAULT 'x')",
];

/// The text before FROM, and the text after the conditions.
const SHAPES: [(&str, &str); 6] = [
    ("SELECT *", ""),
    (
        "SELECT t.a, c AS \"Name\", NULL",
        " ORDER BY 1 DESC LIMIT 5",
    ),
    ("SELECT a + 2 * b - 1 AS s, 'it''s', d", " ORDER BY s, d"),
    ("SELECT DISTINCT c", ""),
    ("SELECT COUNT(*), MIN(d), MAX(c), SUM(a * b)", ""),
    (
        "SELECT c, SUM(a) AS s",
        " GROUP BY c HAVING COUNT(b) > 1 ORDER BY s",
    ),
];

/// The tables in FROM.
const FROM: [&str; 4] = [
    " FROM t",
    " FROM t, u",
    " FROM t JOIN u ON t.a = u.e",
    " FROM t JOIN u ON b = e AND f <> 'x'",
];

/// The text before a test.
const JOINTS: [&str; 4] = [" AND ", " AND NOT ", " OR ", " OR NOT "];

/// The text before the digit of a test, and the text after it.
const TESTS: [(&str, &str); 12] = [
    ("a > ", ""),
    ("a = ", ""),
    ("b BETWEEN 2 AND ", ""),
    ("c = 'it''s \\", "'"),
    ("c < 'tab\t\"", "'"),
    ("d <= DATE '2024-02-0", "'"),
    ("a IN (9223372036854775807, ", ")"),
    ("a < b AND c >= '", "'"),
    ("c IN ('x', 'y", "', NULL)"),
    ("(a IS NULL OR b <> ", ")"),
    ("1 < ", ""),
    ("d IS NOT NULL AND b >= -", ""),
];

/// Numbers that look random: Knuth's linear congruential generator of 64 bits.
#[derive(Drop)]
pub(crate) struct Dice {
    state: u64,
}

impl Dice {
    /// The generator at its start.
    pub(crate) fn new() -> Dice {
        Dice { state: 1 }
    }

    /// The next number, reduced to one below `sides`.
    fn roll(&mut self, sides: usize) -> usize
        requires { 0 < sides }
        ensures { result < sides }
    {
        self.state = self
            .state
            .wrapping_mul(6_364_136_223_846_793_005)
            .wrapping_add(1_442_695_040_888_963_407);
        (self.state >> 33) as usize % sides
    }

    /// One of `things`, or `first` where there are none.
    fn pick<T: Copy>(&mut self, things: &[T], first: T) -> T {
        let count = things.len();
        if count == 0 {
            return first;
        }
        match things.get(self.roll(count)) {
            Some(thing) => *thing,
            None => first,
        }
    }
}

/// Adds a test.
fn write_test(dice: &mut Dice, text: &mut Vec<u8>) -> Result<(), Memory> {
    let (front, back) = dice.pick(&TESTS, ("", ""));
    text.extend_from_slice(front.as_bytes())?;
    text.push(b'1' + dice.roll(9) as u8)?;
    text.extend_from_slice(back.as_bytes())?;
    Ok(())
}

/// The next query: a shape, tables, and up to four tests.
pub(crate) fn next_query(alloc: Global, dice: &mut Dice) -> Result<Vec<u8>, Memory> {
    let mut text = Vec::new(alloc);
    let (front, back) = dice.pick(&SHAPES, ("", ""));
    text.extend_from_slice(front.as_bytes())?;
    text.extend_from_slice(dice.pick(&FROM, "").as_bytes())?;
    for number in 0..dice.roll(5) {
        let joint = dice.pick(&JOINTS, "");
        let before = if number == 0 { " WHERE " } else { joint };
        text.extend_from_slice(before.as_bytes())?;
        write_test(dice, &mut text)?;
    }
    text.extend_from_slice(back.as_bytes())?;
    Ok(text)
}
