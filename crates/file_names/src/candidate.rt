// The one file whose name a text may be.
ghost use Rattle.std.specs.Prelude.{◌≡◌, ◌≤◌, ◌<◌, ◌^◌, IfOk, Option, option_map, take, drop, slice_index, codes};
ghost use Rattle.std.specs.Str.{bytes_eq};
ghost use Rattle.file_names.specs.FileName.{instant_ending};
ghost use Rattle.file_names.specs.Candidate.{hex_value, hex_number, born_of, group_of, token_of, state_of, ending_of, timeline_file, base_file, log_file, three_pieces, data_file, IsFound};

use crate::endings::ending;
use crate::{Action, FileName, State, Token};
use hudi_base::{GroupRef, InstantTime, Name};
use std::alloc::{AllocError, Global};
use table_forms::{is_partition_path, read_decimal, split_once};

fn first_bytes(count: usize, text: &[u8]) -> &[u8]
    ensures { result.now ≡ take count text.now }
{
    if count < text.len() {
        &text[..count]
    } else {
        text
    }
}

fn bytes_from(offset: usize, text: &[u8]) -> &[u8]
    ensures { result.now ≡ drop offset text.now }
{
    if offset < text.len() {
        &text[offset..]
    } else {
        &[]
    }
}

fn byte_at(offset: usize, text: &[u8]) -> u8
    ensures { result ≡ slice_index text.now offset }
{
    if offset < text.len() { text[offset] } else { 0 }
}

fn hex_value(digit: u8) -> u16
    ensures value { result ≡ hex_value digit }
    ensures small { result < 16 }
{
    let value = if digit < 97 {
        digit.saturating_sub(48)
    } else {
        digit - 87
    };
    (value % 16) as u16
}

#[tactic(auto, unfolding(crate::specs::Candidate::hex_number))]
fn hex_number(offset: usize, text: &[u8]) -> u16
    requires { offset ≤ 4 }
    ensures { result ≡ hex_number offset text.now }
{
    let first = hex_value(byte_at(offset, text));
    let second = hex_value(byte_at(offset + 1, text));
    let third = hex_value(byte_at(offset + 2, text));
    let fourth = hex_value(byte_at(offset + 3, text));
    first * 4096 + second * 256 + third * 16 + fourth
}

#[tactic(auto, unfolding(crate::specs::Candidate::born_of))]
fn born_of(text: &[u8]) -> Option<InstantTime>
    ensures { result ≡ born_of text.now }
{
    if text == b"0".as_slice() {
        Some(InstantTime::FIRST)
    } else {
        InstantTime::from_text(text)
    }
}

#[tactic(auto, unfolding(crate::specs::Candidate::group_of))]
pub(crate) fn group_of(partition: Name, id: &[u8]) -> Option<GroupRef>
    ensures { result ≡ group_of partition id.now }
{
    match born_of(bytes_from(37, id)) {
        Some(born) => Some(GroupRef {
            partition,
            lo: hex_number(0, id),
            hi: hex_number(4, id),
            born,
        }),
        None => None,
    }
}

#[tactic(auto, unfolding(crate::specs::Candidate::token_of))]
fn token_of(text: &[u8]) -> Option<Token>
    ensures { result ≡ token_of text.now }
{
    let (session, attempt) = split_once(b'-', bytes_from(2, text))?;
    let session = read_decimal(session)?;
    let attempt = read_decimal(attempt)?;
    Some(Token { session, attempt })
}

fn is_ending(action: Action, state: State, text: &[u8]) -> bool
    ensures { result ≡ bytes_eq text.now (instant_ending action state) }
{
    text == ending(action, state).as_bytes()
}

#[tactic(auto, unfolding(crate::specs::Candidate::state_of))]
fn state_of(action: Action, text: &[u8]) -> Option<State>
    ensures { result ≡ state_of action text.now }
{
    if is_ending(action, State::Requested, text) {
        return Some(State::Requested);
    }
    if is_ending(action, State::Inflight, text) {
        return Some(State::Inflight);
    }
    if is_ending(action, State::Completed, text) {
        return Some(State::Completed);
    }
    None
}

#[tactic(auto, unfolding(crate::specs::Candidate::ending_of))]
fn ending_of(text: &[u8]) -> Option<(Action, State)>
    ensures { result ≡ ending_of text.now }
{
    if let Some(state) = state_of(Action::Delta, text) {
        return Some((Action::Delta, state));
    }
    if let Some(state) = state_of(Action::Compaction, text) {
        return Some((Action::Compaction, state));
    }
    if let Some(state) = state_of(Action::Replace, text) {
        return Some((Action::Replace, state));
    }
    if let Some(state) = state_of(Action::Clean, text) {
        return Some((Action::Clean, state));
    }
    if let Some(state) = state_of(Action::Rollback, text) {
        return Some((Action::Rollback, state));
    }
    None
}

#[tactic(auto, unfolding(crate::specs::Candidate::timeline_file))]
fn timeline_file(rest: &[u8]) -> Option<FileName>
    ensures { result ≡ timeline_file rest.now }
{
    if rest == b"hoodie.properties".as_slice() {
        return Some(FileName::Properties);
    }
    let t = InstantTime::from_text(first_bytes(17, rest))?;
    let (action, state) = ending_of(bytes_from(17, rest))?;
    Some(FileName::Instant(t, action, state))
}

#[tactic(auto, unfolding(crate::specs::Candidate::base_file))]
fn base_file(partition: Name, id: &[u8], middle: &[u8], last: &[u8]) -> Option<FileName>
    ensures { result ≡ base_file partition id.now middle.now last.now }
{
    let group = group_of(partition, id)?;
    let token = token_of(middle)?;
    let t = InstantTime::from_text(first_bytes(17, last))?;
    Some(FileName::Base(group, token, t))
}

#[tactic(auto, unfolding(crate::specs::Candidate::log_file))]
fn log_file(partition: Name, id: &[u8], middle: &[u8], last: &[u8]) -> Option<FileName>
    ensures { result ≡ log_file partition id.now middle.now last.now }
{
    let group = group_of(partition, id)?;
    let slice = InstantTime::from_text(first_bytes(17, middle))?;
    let version = read_decimal(bytes_from(22, middle))?;
    let token = token_of(last)?;
    Some(FileName::Log(group, slice, version, token))
}

#[tactic(auto, unfolding(crate::specs::Candidate::three_pieces))]
fn three_pieces(text: &[u8]) -> Option<(&[u8], &[u8], &[u8])>
    ensures { option_map (λ x. (x.0.now, x.1.now, x.2.now)) result ≡ three_pieces text.now }
{
    let (first, rest) = split_once(b'_', text)?;
    let (second, third) = split_once(b'_', rest)?;
    Some((first, second, third))
}

#[tactic(auto, unfolding(crate::specs::Candidate::data_file))]
fn data_file(partition: Name, file: &[u8]) -> Option<FileName>
    ensures { result ≡ data_file partition file.now }
{
    if byte_at(0, file) == b'.' {
        let (id, middle, last) = three_pieces(bytes_from(1, file))?;
        return log_file(partition, id, middle, last);
    }
    let (id, middle, last) = three_pieces(file)?;
    base_file(partition, id, middle, last)
}

fn is_in_timeline(name: &[u8]) -> bool
    ensures { result ≡ bytes_eq (take 8 name.now) (codes ".hoodie/") }
{
    first_bytes(8, name) == b".hoodie/".as_slice()
}

/// The file that the name is the name of, if it is one at all.
pub(crate) fn candidate(alloc: Global, name: &[u8]) -> Result<Option<FileName>, AllocError>
    ensures { IfOk result (λ found. IsFound name.now found) }
{
    if is_in_timeline(name) {
        return Ok(timeline_file(bytes_from(8, name)));
    }
    let Some((partition, file)) = split_once(b'/', name) else {
        return Ok(None);
    };
    if !is_partition_path(partition) {
        return Ok(None);
    }
    let partition = Name::from_slice(alloc, partition)?;
    Ok(data_file(partition, file))
}
