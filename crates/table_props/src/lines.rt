// The lines of a text, and what each says of a key.
ghost use Rattle.std.specs.Prelude.{◌≡◌, ◌<◌, [], ◌∷◌, ◌++◌, length, map, option_map, IfOk, IfSome, OnOk};
ghost use Rattle.table_props.specs.PropsTexts.{unended, lines_of, value_of, value_in, is_bad, is_passed_over, first_bad};

use crate::property_key::PropertyKey;
use std::alloc::{AllocError, Global};
use table_forms::split_once;

fn push_line<'a>(lines: &mut Vec<&'a [u8]>, line: &'a [u8]) -> Result<(), AllocError>
    ensures { OnOk result (lines.new.items ≡ lines.old.items ++ line.entry ∷ []) }
{
    if lines.push(line).is_err() {
        return Err(AllocError);
    }
    Ok(())
}

// Adds what stands behind the last line feed, if anything does.
fn push_last<'a>(lines: &mut Vec<&'a [u8]>, rest: &'a [u8]) -> Result<(), AllocError>
    ensures { OnOk result (map (λ line. line.now) lines.new.items
        ≡ map (λ line. line.now) lines.old.items ++ unended (rest.entry.now ∷ [])) }
{
    if rest.is_empty() {
        return Ok(());
    }
    push_line(lines, rest)
}

// The lines, each of which ends with a line feed; the last one needs none.
pub(crate) fn lines_of(alloc: Global, text: &[u8]) -> Result<Vec<&[u8]>, AllocError>
    ensures { IfOk result (λ lines. map (λ line. line.now) lines.items ≡ lines_of text.now) }
{
    let mut lines = Vec::new(alloc);
    let mut rest = text;
    'lines: while let Some((line, after)) = split_once(b'\n', rest) {
        push_line(&mut lines, line)?;
        rest = after;
    }
    push_last(&mut lines, rest)?;
    Ok(lines)
}

// The value that a line gives a key.
#[tactic(auto, unfolding(crate::specs::PropsTexts::value_of))]
fn value_of<'a>(key: PropertyKey, line: &'a [u8]) -> Option<&'a [u8]>
    ensures { option_map (λ value. value.now) result ≡ value_of key line.now }
{
    match split_once(b'=', line) {
        Some((text, value)) if text == key.text() => Some(value),
        _ => None,
    }
}

// The value that the first line with the key gives it.
pub(crate) fn value_in<'a>(key: PropertyKey, lines: &[&'a [u8]]) -> Option<&'a [u8]>
    ensures { option_map (λ value. value.now) result ≡ value_in key (map (λ line. line.now) lines.now) }
{
    for line in lines {
        if let Some(value) = value_of(key, line) {
            return Some(value);
        }
    }
    None
}

// Whether a line without `=` is an empty one or a comment.
fn is_passed_over(line: &[u8]) -> bool
    ensures { result ≡ is_passed_over line.now }
{
    match line {
        [] => true,
        [first, ..] => *first == b'#',
    }
}

// Whether a line behind these is refused.
#[tactic(auto, unfolding(crate::specs::PropsTexts::is_bad))]
fn is_bad(alloc: Global, before: &[&[u8]], line: &[u8]) -> Result<bool, AllocError>
    ensures { IfOk result (λ answer. answer ≡ is_bad (map (λ line. line.now) before.now) line.now) }
{
    let Some((text, value)) = split_once(b'=', line) else {
        return Ok(!is_passed_over(line));
    };
    let Some(key) = PropertyKey::of(text) else {
        return Ok(false);
    };
    if value_in(key, before).is_some() {
        return Ok(true);
    }
    Ok(!key.allows(alloc, value)?)
}

// The place of the first refused line.
pub(crate) fn first_bad(alloc: Global, lines: &[&[u8]]) -> Result<Option<usize>, AllocError>
    ensures place { IfOk result (λ place. place ≡ first_bad [] (map (λ line. line.now) lines.now)) }
    ensures within { IfOk result (λ place. IfSome place (λ i. i < length lines.now)) }
{
    for i in 0..lines.len() {
        if is_bad(alloc, &lines[..i], lines[i])? {
            return Ok(Some(i));
        }
    }
    Ok(None)
}
