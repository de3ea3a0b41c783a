ghost use Rattle.std.specs.Prelude.{◌≡◌};
ghost use Rattle.std.specs.Option.{option_copied, option_map};
ghost use Rattle.sql_tree.specs.Tree.{stmt_tree};
ghost use Rattle.run_log.specs.Events.{act_tree, committed};

use crate::stmt_text::StmtText;
use lineage_key::Key;
use mal_meaning::Plan;
use pool_policy::Admitted;

/// One event of the log. Positions in the log count from 1.
pub struct Event {
    /// The session, from 1.
    pub session: u32,
    /// The session's statement, from 1.
    pub statement: u32,
    /// What was done.
    pub act: Act,
}

// By a call of its own, so that proofs needn't go through its forms where one is dropped.
impl Drop for Event {
    fn drop(self) {
        let Event {
            session: _,
            statement: _,
            act: _,
        } = self;
    }
}

/// What an event does. A code is 0 where the statement is accepted, and else the refusal's number.
pub enum Act {
    /// A query begins: it sees the tables at this position.
    Begin {
        /// 0, or the number of the refusal by the tables.
        code: u8,
        /// The plan by which a query is run; None for an EXPLAIN and for a query that is refused.
        plan: Option<Plan>,
    },
    /// The pool is asked for the result of an instruction.
    Look {
        /// The number of the instruction in the plan, from 1, as EXPLAIN numbers it.
        instr: u32,
        /// The key of its result.
        key: Key,
        /// What is found.
        found: FoundLog,
    },
    /// The result of an instruction is offered to the pool.
    Admit {
        /// The number of the instruction in the plan, from 1, as EXPLAIN numbers it.
        instr: u32,
        /// The key of its result.
        key: Key,
        /// What the pool answers.
        result: Admitted,
    },
    /// A statement that is no query, whole.
    Write {
        /// The text of the statement; None where that is refused.
        stmt: Option<StmtText>,
        /// 0, or the number of the refusal.
        code: u8,
        /// The rows inserted, deleted or updated; 0 for a refusal, for CREATE, DROP and ALTER.
        count: u64,
    },
    /// A query ends.
    End {
        /// 0, or the number of the refusal.
        code: u8,
    },
}

// By a call of its own, so that proofs needn't go through its forms where one is dropped.
impl Drop for Act {
    fn drop(self) {
        match self {
            Act::Begin { code: _, plan: _ }
            | Act::Look {
                instr: _,
                key: _,
                found: _,
            }
            | Act::Admit {
                instr: _,
                key: _,
                result: _,
            }
            | Act::Write {
                stmt: _,
                code: _,
                count: _,
            }
            | Act::End { code: _ } => {}
        }
    }
}

/// The code of what isn't refused. Any other is the number of a refusal.
pub const ACCEPTED: u8 = 0;

/// What a look finds, as it is logged.
#[derive(Clone, Copy, PartialEq, Eq)]
pub enum FoundLog {
    /// The entry with this id has the key.
    Exact(u64),
    /// The range of the entry with this id contains that of the key.
    Within(u64),
    /// So many pieces cover the range of the key.
    Across(u64),
    /// Nothing.
    Miss,
}

impl Act {
    /// The statement of an accepted write.
    pub fn committed(&self) -> Option<&StmtText>
        ensures { option_map stmt_tree (option_copied result) ≡ committed (act_tree self.now) }
    {
        match self {
            Act::Write {
                stmt,
                code: ACCEPTED,
                ..
            } => stmt.as_ref(),
            _ => None,
        }
    }
}

/// The totals of a run so far.
#[derive(Clone, Copy, PartialEq, Eq)]
pub struct Totals {
    /// The entries of the pool.
    pub entries: u64,
    /// Their stated bytes.
    pub bytes: u64,
    /// The most bytes that there were after any event.
    pub peak: u64,
    /// Looks.
    pub looks: u64,
    /// Looks that found an equal result.
    pub exact: u64,
    /// Looks that found a containing range.
    pub within: u64,
    /// Looks that found a cover.
    pub across: u64,
    /// Looks that found nothing.
    pub miss: u64,
    /// Results that were taken in.
    pub taken: u64,
    /// Results that were there already.
    pub there: u64,
    /// Binds of a version that isn't the present one.
    pub stale: u64,
    /// Results of which a parent wasn't pooled.
    pub orphan: u64,
    /// Results whose shape had no credit.
    pub nocredit: u64,
    /// Results for which there was no room.
    pub noroom: u64,
    /// Entries that were given up for room.
    pub evicted: u64,
    /// Entries that a write touched and that didn't come back.
    pub dropped: u64,
    /// Entries that a write touched and that came back.
    pub carried: u64,
    /// The stated work, in pairs of cells.
    pub work: u128,
    /// Events.
    pub events: u64,
}
