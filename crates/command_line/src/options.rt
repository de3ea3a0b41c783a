//! The options of a run, read from the values that clap found.
ghost use Rattle.std.specs.Prelude.{◌≡◌, IfOk};
ghost use Rattle.command_line.specs.Command as told;
ghost use Rattle.command_line.specs.Numbers.{number_in};
ghost use Rattle.command_line.specs.Matches.{texts_in, uses_in};
ghost use Rattle.command_line.specs.Weights.{even_weights, weights_in};

use crate::command::RunOptions;
use crate::matches::values;
use crate::numbers::number_between;
use crate::weights::{even_weights, weights_in};
use cell_core::{Memory, Sequence};
use clap::ArgMatches;
use pool_policy::Admit;
use score_hook::Evict;
use std::alloc::Global;

/// The budget of the pool in bytes where no word says it: 16 MiB.
const DEFAULT_BUDGET: u64 = 16_777_216;

/// The largest budget: 1 TiB.
const MOST_BUDGET: u64 = 1_099_511_627_776;

/// The credit that a shape starts with where no word says it.
const DEFAULT_CREDITS: u64 = 3;

/// The largest credit that a shape can start with.
const MOST_CREDITS: u64 = 1_000_000;

/// The number of workers of a query where no word names it.
const DEFAULT_WORKERS: u32 = 4;

/// The most workers of a query.
const MOST_WORKERS: u64 = 16;

/// The options where no word names one.
pub fn default_options(alloc: Global) -> RunOptions
    ensures { result ≡ told.default_options }
{
    RunOptions {
        budget: DEFAULT_BUDGET,
        evict: Evict::Lru,
        admit: Admit::All,
        credits: DEFAULT_CREDITS,
        weights: Sequence::new(alloc),
        events: false,
    }
}

/// The options, if each occurs at most once and has a value of its kind.
pub(crate) fn options_of(alloc: Global, matches: &ArgMatches) -> Result<Option<RunOptions>, Memory>
    ensures { IfOk result (λ options. options ≡ told.options_in (uses_in matches.now)) }
{
    let Some(budget) = one_number(
        values(alloc, matches, "budget")?.as_slice(),
        DEFAULT_BUDGET,
        0,
        MOST_BUDGET,
    ) else {
        return Ok(None);
    };
    let Some(evict) = one_evict(values(alloc, matches, "evict")?.as_slice()) else {
        return Ok(None);
    };
    let Some(admit) = one_admit(values(alloc, matches, "admit")?.as_slice()) else {
        return Ok(None);
    };
    let Some(credits) = one_number(
        values(alloc, matches, "credits")?.as_slice(),
        DEFAULT_CREDITS,
        1,
        MOST_CREDITS,
    ) else {
        return Ok(None);
    };
    let Some(weights) = weights_for(alloc, evict, values(alloc, matches, "weights")?.as_slice())?
    else {
        return Ok(None);
    };
    let Some(events) = flag(values(alloc, matches, "events")?.as_slice()) else {
        return Ok(None);
    };
    Ok(Some(RunOptions {
        budget,
        evict,
        admit,
        credits,
        weights,
        events,
    }))
}

/// The number of workers of a query, if the option occurs at most once, with a value from 1 to 16.
pub(crate) fn workers_of(alloc: Global, matches: &ArgMatches) -> Result<Option<u32>, Memory>
    ensures { IfOk result (λ workers. workers ≡ told.workers_in (uses_in matches.now)) }
{
    let texts = values(alloc, matches, "workers")?;
    Ok(one_count(texts.as_slice()))
}

/// The one number of workers, or the default where there is none.
fn one_count(texts: &[&str]) -> Option<u32>
    ensures { result ≡ told.one_or 4 (number_in 1 16) (texts_in texts.now) }
{
    match texts {
        [] => Some(DEFAULT_WORKERS),
        [text, more @ ..] => match more {
            [] => count_named(text),
            [_, ..] => None,
        },
    }
}

fn count_named(text: &str) -> Option<u32>
    ensures { result ≡ number_in 1 16 text.now }
{
    match number_between(text, 1, MOST_WORKERS) {
        Some(count) => Some(count as u32),
        None => None,
    }
}

/// The one number, or the default where there is none.
fn one_number(texts: &[&str], default: u64, low: u64, high: u64) -> Option<u64>
    ensures { result ≡ told.one_or default (number_in low high) (texts_in texts.now) }
{
    match texts {
        [] => Some(default),
        [text, more @ ..] => match more {
            [] => number_between(text, low, high),
            [_, ..] => None,
        },
    }
}

/// The one eviction policy, or `lru` where there is none.
fn one_evict(texts: &[&str]) -> Option<Evict>
    ensures { result ≡ told.one_or Evict.Lru told.evict_in (texts_in texts.now) }
{
    match texts {
        [] => Some(Evict::Lru),
        [text, more @ ..] => match more {
            [] => evict_named(text),
            [_, ..] => None,
        },
    }
}

fn evict_named(text: &str) -> Option<Evict>
    ensures { result ≡ told.evict_in text.now }
{
    if text == "lru" {
        return Some(Evict::Lru);
    }
    if text == "benefit" {
        return Some(Evict::Benefit);
    }
    if text == "history" {
        return Some(Evict::History);
    }
    if text == "weighted" {
        return Some(Evict::Weighted);
    }
    None
}

/// The one admission policy, or `all` where there is none.
fn one_admit(texts: &[&str]) -> Option<Admit>
    ensures { result ≡ told.one_or Admit.All told.admit_in (texts_in texts.now) }
{
    match texts {
        [] => Some(Admit::All),
        [text, more @ ..] => match more {
            [] => admit_named(text),
            [_, ..] => None,
        },
    }
}

fn admit_named(text: &str) -> Option<Admit>
    ensures { result ≡ told.admit_in text.now }
{
    if text == "all" {
        return Some(Admit::All);
    }
    if text == "credit" {
        return Some(Admit::Credit);
    }
    None
}

/// The weights by at most one list where the eviction policy is `weighted`; else none, without a
/// list.
fn weights_for(alloc: Global, evict: Evict, texts: &[&str]) -> Result<Option<Sequence<u64>>, Memory>
    ensures { IfOk result (λ weights. weights ≡ told.weights_for evict (texts_in texts.now)) }
{
    match evict {
        Evict::Weighted => one_list(alloc, texts),
        _ => match texts {
            [] => Ok(Some(Sequence::new(alloc))),
            [_, ..] => Ok(None),
        },
    }
}

/// The weights of the one list, or the same weight for each operator where there is none.
fn one_list(alloc: Global, texts: &[&str]) -> Result<Option<Sequence<u64>>, Memory>
    ensures { IfOk result (λ weights. weights ≡ told.one_or even_weights weights_in (texts_in texts.now)) }
{
    match texts {
        [] => Ok(Some(even_weights(alloc)?)),
        [text, more @ ..] => match more {
            [] => weights_in(alloc, text),
            [_, ..] => Ok(None),
        },
    }
}

/// Whether the option without a value occurs, if at most once.
fn flag(texts: &[&str]) -> Option<bool>
    ensures { result ≡ told.flag_in (texts_in texts.now) }
{
    match texts {
        [] => Some(false),
        [_, more @ ..] => match more {
            [] => Some(true),
            [_, ..] => None,
        },
    }
}
