//! The commands of the program and their options, read from the command line by clap.
//!
//! Words and operators are from `cell_core`, the operators' names from `mal_tokens`, the values of
//! the options from `score_hook` and `pool_policy`, and numbers from `text_bytes`.
//! `specs/Words.antt` is the grammar of options and files in words. `specs/Numbers.antt` and
//! `specs/Weights.antt` are the grammars of the options' values. `specs/Command.antt` defines what
//! they mean, and which word `generate` takes.
//!
//! `command_of` returns exactly the command that words name. Its options are fit for a pool and its
//! scorer, and `run` has 1 to 16 workers.
//!
//! What clap makes of the words is taken from its own contract. To clap each option may occur
//! again, so it returns all the values under each name; their reader checks that each option occurs
//! at most once. clap knows the same options for `run` and `replay`; the reader also refuses
//! `--workers` of `replay`. `proofs/` shows, by one step of clap's walk for each class of words,
//! that clap takes exactly the words of the grammar.
#![tactic(auto)]

mod command;
mod matches;
mod numbers;
mod options;
mod weights;

pub use command::{Command, RunOptions, command_of};
pub use options::default_options;
