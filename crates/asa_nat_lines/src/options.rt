//! The reader of the options at the end of a rule.
ghost use Rattle.std.specs.Prelude.{◌≡◌, ◌||◌};
ghost use Rattle.std.specs.Str.{bytes_eq};
ghost use Rattle.asa_text.specs.Readers.{Reads};
ghost use Rattle.asa_nat_lines.specs.Options as spec;

use asa_text::{LineFault, Word, Words};

/// The options of a rule that change what it does.
#[derive(Clone, Copy, Debug)]
pub(crate) struct Options {
    pub(crate) unidirectional: bool,
    pub(crate) inactive: bool,
    pub(crate) route_lookup: bool,
}

/// Whether the word is this text.
fn is(word: &Word<'_>, text: &[u8]) -> bool
    ensures { result ≡ bytes_eq word.now.word text.now }
{
    word.bytes() == text
}

/// Whether the word is an option that is left out here.
fn is_left_out(word: &Word<'_>) -> bool
    ensures { result ≡ spec.is_left_out word.now.word }
{
    is(word, b"dns")
        || is(word, b"net-to-net")
        || is(word, b"ipv6")
        || is(word, b"round-robin")
        || is(word, b"block-allocation")
}

/// Whether the word is one of `pat-pool`.
fn is_of_pool(word: &Word<'_>) -> bool
    ensures { result ≡ spec.is_of_pool word.now.word }
{
    is(word, b"extended") || is(word, b"flat") || is(word, b"include-reserve")
}

/// Why a word that is no option of this rule is refused.
fn fault(word: &Word<'_>) -> LineFault
    ensures { result ≡ spec.fault_at word.now }
{
    let column = word.column();
    if is_left_out(word) || is_of_pool(word) {
        LineFault::Unsupported { column }
    } else {
        LineFault::Bad { column }
    }
}

/// The options with one word more.
#[tactic(auto, unfolding(crate::specs::Options::with_option))]
fn with_option(
    manual: bool,
    is_static: bool,
    options: Options,
    word: &Word<'_>,
) -> Result<Options, LineFault>
    ensures { result ≡ spec.with_option manual is_static options word.now }
{
    if is(word, b"unidirectional") && manual {
        Ok(Options {
            unidirectional: true,
            ..options
        })
    } else if is(word, b"inactive") && manual {
        Ok(Options {
            inactive: true,
            ..options
        })
    } else if is(word, b"route-lookup") && is_static {
        Ok(Options {
            route_lookup: true,
            ..options
        })
    } else if is(word, b"no-proxy-arp") {
        Ok(options)
    } else {
        Err(fault(word))
    }
}

/// Reads `[OPTIONS]` to the line's end, in any order and each as often as it stands there. `unidirectional` and `inactive`
/// are options of manual rules, `route-lookup` is one of static rules; `no-proxy-arp`, and `description` with all words
/// after it, are ignored. Options of the device that are left out here are Unsupported, as are the words of `pat-pool`
/// at this place; every other word is Bad.
pub(crate) fn rule_options(
    words: &mut Words<'_>,
    manual: bool,
    is_static: bool,
) -> Result<Options, LineFault>
    ensures { Reads result words.new (spec.options_at manual is_static words.old) }
{
    let mut options = Options {
        unidirectional: false,
        inactive: false,
        route_lookup: false,
    };
    while let Some(word) = words.next() {
        if is(&word, b"description") {
            return Ok(options);
        }
        options = with_option(manual, is_static, options, &word)?;
    }
    Ok(options)
}
