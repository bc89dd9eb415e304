//! Lines that have a fixed number of words left.
ghost use Rattle.std.specs.Prelude.{◌≡◌, option_and_then};
ghost use Rattle.pe_script.specs.Taking.{one, two, three, four};

use pe_lines::{WordReader, WordSpan};

/// The word, where there is one.
pub fn one<'a>(mut words: WordReader<'a>) -> Option<WordSpan<'a>>
    ensures { result ≡ option_and_then one words.entry.words }
{
    let first = words.next()?;
    if !words.is_done() {
        return None;
    }
    Some(first)
}

/// The words, where there are two.
pub fn two<'a>(mut words: WordReader<'a>) -> Option<(WordSpan<'a>, WordSpan<'a>)>
    ensures { result ≡ option_and_then two words.entry.words }
{
    let first = words.next()?;
    let second = one(words)?;
    Some((first, second))
}

/// The words, where there are three.
pub fn three<'a>(mut words: WordReader<'a>) -> Option<(WordSpan<'a>, WordSpan<'a>, WordSpan<'a>)>
    ensures { result ≡ option_and_then three words.entry.words }
{
    let first = words.next()?;
    let (second, third) = two(words)?;
    Some((first, second, third))
}

/// The words, where there are four.
pub fn four<'a>(
    mut words: WordReader<'a>,
) -> Option<(WordSpan<'a>, WordSpan<'a>, WordSpan<'a>, WordSpan<'a>)>
    ensures { result ≡ option_and_then four words.entry.words }
{
    let first = words.next()?;
    let (second, third, fourth) = three(words)?;
    Some((first, second, third, fourth))
}
