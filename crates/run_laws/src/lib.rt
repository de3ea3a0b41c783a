//! Laws of whole logs: a statement meets what its session did before, and a schedule has one log.
//!
//! In an ordered log each event of an earlier statement of a session is before the place of a later
//! one. So the commits that the later one meets include all that its session had met or committed
//! (`sees_own`). A schedule fixes its log, and with the names all that is printed (`one_log`). The
//! calls compute nothing: each contract is a law of `specs/Laws`.
#![tactic(auto)]

mod laws;

pub use laws::{one_log, sees_own};
