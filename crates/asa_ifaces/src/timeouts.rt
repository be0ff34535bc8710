//! Timeout lines.
ghost use Rattle.std.specs.Prelude.{◌≡◌, ◌==◌, ◌≤◌, ◌∷◌, [], false, length, IfSome, IfNone};
ghost use Rattle.asa_text.specs.Readers.{Reads};
ghost use Rattle.asa_ifaces.specs.Times as spec;

use crate::iface::Timeouts;
use asa_text::{LineFault, Words, cut_run, keyword, parse_number};

/// What has a time of its own.
#[derive(Clone, Copy, Debug, PartialEq, Eq)]
pub(crate) enum Timed {
    Conn,
    HalfClosed,
    Udp,
    Icmp,
}

/// The number of a word, from 0 to `greatest`.
fn number_to(word: &[u8], greatest: u64) -> Option<u64>
    ensures value { result ≡ spec.number_to greatest word.now }
    ensures few { IfSome result (λ n. n ≤ greatest) }
{
    match parse_number(word, 0, greatest) {
        Ok(number) => Some(number),
        Err(_) => None,
    }
}

/// Minutes or seconds: one or two digits, at most 59.
fn sixtieths(word: &[u8]) -> Option<u64>
    ensures value { result ≡ spec.sixtieths_of word.now }
    ensures few { IfSome result (λ n. n ≤ 59) }
{
    if word.len() > 2 {
        return None;
    }
    number_to(word, 59)
}

/// The seconds of three runs.
fn in_seconds(hours: &[u8], minutes: &[u8], seconds: &[u8]) -> Option<u32>
    ensures { result ≡ spec.in_seconds (spec.hours_of hours.now) (spec.sixtieths_of minutes.now) (spec.sixtieths_of seconds.now) }
{
    let hours = number_to(hours, 1193)?;
    let minutes = sixtieths(minutes)?;
    let seconds = sixtieths(seconds)?;
    Some((hours * 3600 + minutes * 60 + seconds) as u32)
}

/// The three runs of a word that are joined by its two colons.
#[derive(Drop)]
struct Runs<'a> {
    hours: &'a [u8],
    minutes: &'a [u8],
    seconds: &'a [u8],
}

/// The runs of a word, where there are three.
#[tactic(auto, using(crate::proofs::TimeLaws::runs_some))]
fn three_runs(word: &[u8]) -> Option<Runs<'_>>
    ensures none { IfNone result ((length (spec.colon_runs word.now) == 3) ≡ false) }
    ensures three { IfSome result (λ r. spec.colon_runs word.now ≡ r.hours.now ∷ r.minutes.now ∷ r.seconds.now ∷ []) }
{
    let (hours, rest) = cut_run(word, b':');
    let (minutes, rest) = cut_run(rest?, b':');
    let (seconds, rest) = cut_run(rest?, b':');
    match rest {
        None => Some(Runs {
            hours,
            minutes,
            seconds,
        }),
        Some(_) => None,
    }
}

/// The seconds of a word `H:MM:SS`.
#[tactic(auto, unfolding(crate::specs::Times::time_of))]
fn time_of(word: &[u8]) -> Option<u32>
    ensures { result ≡ spec.time_of word.now }
{
    match three_runs(word) {
        None => None,
        Some(runs) => in_seconds(runs.hours, runs.minutes, runs.seconds),
    }
}

/// Reads a time.
#[tactic(auto, unfolding(crate::specs::Times::time_at))]
fn read_time(words: &mut Words<'_>) -> Result<u32, LineFault>
    ensures { Reads result words.new (spec.time_at words.old) }
{
    let word = words.word()?;
    match time_of(word.bytes()) {
        Some(seconds) => Ok(seconds),
        None => Err(word.bad()),
    }
}

/// What a word sets the time of.
#[tactic(auto, unfolding(crate::specs::Times::timed_of))]
fn timed_of(word: &[u8]) -> Option<Timed>
    ensures { result ≡ spec.timed_of word.now }
{
    if word == b"conn".as_slice() {
        return Some(Timed::Conn);
    }
    if word == b"half-closed".as_slice() {
        return Some(Timed::HalfClosed);
    }
    if word == b"udp".as_slice() {
        return Some(Timed::Udp);
    }
    if word == b"icmp".as_slice() {
        return Some(Timed::Icmp);
    }
    None
}

/// The times after one is set.
fn with_time(times: Timeouts, timed: Timed, seconds: u32) -> Timeouts
    ensures { result ≡ spec.with_time times timed seconds }
{
    match timed {
        Timed::Conn => Timeouts {
            conn: seconds,
            ..times
        },
        Timed::HalfClosed => Timeouts {
            half_closed: seconds,
            ..times
        },
        Timed::Udp => Timeouts {
            udp: seconds,
            ..times
        },
        Timed::Icmp => Timeouts {
            icmp: seconds,
            ..times
        },
    }
}

/// Reads the time that a word sets, where it sets one.
#[tactic(auto, unfolding(crate::specs::Times::after_word))]
fn read_timed(times: Timeouts, word: &[u8], words: &mut Words<'_>) -> Result<Timeouts, LineFault>
    ensures { Reads result words.new (spec.after_word times word.now words.old) }
{
    match timed_of(word) {
        None => Ok(times),
        Some(timed) => {
            let seconds = read_time(words)?;
            Ok(with_time(times, timed, seconds))
        }
    }
}

/// Reads the rest of the line.
#[tactic(auto, using(crate::proofs::TimeLaws::times_next, crate::proofs::TimeLaws::times_end))]
fn read_times(times: Timeouts, words: &mut Words<'_>) -> Result<Timeouts, LineFault>
    ensures { Reads result words.new (spec.times_at times words.old) }
{
    let mut times = times;
    while let Some(word) = words.next() {
        times = read_timed(times, word.bytes(), words)?;
    }
    Ok(times)
}

/// Reads a whole timeout line, where these are the times before it.
#[tactic(auto, unfolding(crate::specs::Times::timeout_line))]
pub(crate) fn read_timeout(times: Timeouts, words: &mut Words<'_>) -> Result<Timeouts, LineFault>
    ensures { Reads result words.new (spec.timeout_line times words.old) }
{
    keyword(words, b"timeout")?;
    read_times(times, words)
}
