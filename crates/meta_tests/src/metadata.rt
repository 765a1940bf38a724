// Metadata both ways. The tails of the file ids are the version 5 UUIDs of `t/x`, `u/x` and `t/.x` in the URL
// namespace.
use commit_meta::{Meta, MetaTextError, meta_parse, meta_text};
use file_names::{Action, State};
use hudi_base::Name;
use std::alloc::{AllocError, Global};
use std::test::*;

const TABLE: &str = "t";

// The bytes of each kind of file.
const WRITTEN: [(Action, State, &str); 19] = [
    (Action::Compaction, State::Inflight, ""),
    (Action::Replace, State::Inflight, ""),
    (Action::Clean, State::Inflight, ""),
    (Action::Rollback, State::Inflight, ""),
    (Action::Delta, State::Requested, ""),
    (Action::Delta, State::Inflight, "{\"groups\":[]}"),
    (
        Action::Delta,
        State::Inflight,
        "{\"groups\":[{\"base\":\"20000101000000000\",\"file\":\"00007fff-4f01-52df-a6be-557d177dca72-0\",\"partition\":\"x\"},{\"base\":\"20240101000000004\",\"file\":\"8000ffff-4f01-52df-a6be-557d177dca72-20240101000000004\",\"partition\":\"x\"}]}",
    ),
    (
        Action::Delta,
        State::Completed,
        "{\"checkpoint\":null,\"groups\":[{\"base\":\"20000101000000000\",\"file\":\"00007fff-4f01-52df-a6be-557d177dca72-0\",\"partition\":\"x\",\"writes\":2},{\"base\":\"20240101000000004\",\"file\":\"8000ffff-4f01-52df-a6be-557d177dca72-20240101000000004\",\"partition\":\"x\",\"writes\":4294967295}]}",
    ),
    (
        Action::Delta,
        State::Completed,
        "{\"checkpoint\":18446744073709551615,\"groups\":[]}",
    ),
    (
        Action::Compaction,
        State::Requested,
        "{\"groups\":[{\"base\":null,\"file\":\"00007fff-4f01-52df-a6be-557d177dca72-0\",\"logs\":[{\"length\":92,\"name\":\"x/.00007fff-4f01-52df-a6be-557d177dca72-0_20000101000000000.log.1_0-0-0\"},{\"length\":0,\"name\":\"\"}],\"partition\":\"x\"},{\"base\":{\"length\":18446744073709551615,\"name\":\"x/00007fff-4f01-52df-a6be-557d177dca72-0_0-0-1_20240101000000004.parquet\"},\"file\":\"8000ffff-4f01-52df-a6be-557d177dca72-20240101000000004\",\"logs\":[],\"partition\":\"x\"}]}",
    ),
    (
        Action::Compaction,
        State::Completed,
        "{\"bases\":[{\"file\":\"00007fff-4f01-52df-a6be-557d177dca72-0\",\"length\":500,\"name\":\"x/00007fff-4f01-52df-a6be-557d177dca72-0_0-0-1_20240101000000004.parquet\",\"partition\":\"x\",\"rows\":18446744073709551615}]}",
    ),
    (
        Action::Replace,
        State::Requested,
        "{\"from\":[{\"base\":null,\"file\":\"00007fff-4f01-52df-a6be-557d177dca72-0\",\"logs\":[{\"length\":92,\"name\":\"x/.00007fff-4f01-52df-a6be-557d177dca72-0_20000101000000000.log.1_0-0-0\"}],\"partition\":\"x\"}],\"order\":null,\"to\":[{\"file\":\"00007fff-4f01-52df-a6be-557d177dca72-0\",\"partition\":\"x\"},{\"file\":\"8000ffff-4f01-52df-a6be-557d177dca72-20240101000000004\",\"partition\":\"x\"}]}",
    ),
    (
        Action::Replace,
        State::Requested,
        "{\"from\":[],\"order\":\"v\",\"to\":[]}",
    ),
    (
        Action::Replace,
        State::Completed,
        "{\"bases\":[{\"file\":\"00007fff-4f01-52df-a6be-557d177dca72-0\",\"length\":0,\"name\":\"x/00007fff-4f01-52df-a6be-557d177dca72-0_0-0-1_20240101000000004.parquet\",\"partition\":\"x\",\"rows\":0}],\"replaced\":[{\"file\":\"8000ffff-4f01-52df-a6be-557d177dca72-20240101000000004\",\"partition\":\"x\"}]}",
    ),
    (
        Action::Clean,
        State::Requested,
        "{\"earliest\":\"20240101000000004\",\"files\":[\"x/.00007fff-4f01-52df-a6be-557d177dca72-0_20000101000000000.log.1_0-0-0\",\"\\\"é\\\"\"]}",
    ),
    (Action::Clean, State::Completed, "{\"removed\":4294967295}"),
    (
        Action::Rollback,
        State::Requested,
        "{\"files\":[],\"groups\":[{\"base\":\"20000101000000000\",\"file\":\"00007fff-4f01-52df-a6be-557d177dca72-0\",\"partition\":\"x\"}],\"kind\":\"deltacommit\",\"target\":\"20240101000000001\"}",
    ),
    (
        Action::Rollback,
        State::Requested,
        "{\"files\":[\"x/00007fff-4f01-52df-a6be-557d177dca72-0_0-0-1_20240101000000004.parquet\"],\"groups\":[],\"kind\":\"replacecommit\",\"target\":\"20240101000000001\"}",
    ),
    (
        Action::Rollback,
        State::Completed,
        "{\"target\":\"20240101000000001\"}",
    ),
];

// Other forms that are read, and the form in which they are written.
const READ: [(Action, State, &str, &str); 4] = [
    (
        Action::Clean,
        State::Completed,
        " { \"removed\" :\n2 } ",
        "{\"removed\":2}",
    ),
    (
        Action::Clean,
        State::Completed,
        "{\"removed\":\"x\",\"removed\":3}",
        "{\"removed\":3}",
    ),
    (
        Action::Delta,
        State::Completed,
        "{\"groups\":[],\"checkpoint\":7}",
        "{\"checkpoint\":7,\"groups\":[]}",
    ),
    (
        Action::Clean,
        State::Requested,
        "{\"files\":[\"\\u0061\"],\"earliest\":\"20240101000000001\"}",
        "{\"earliest\":\"20240101000000001\",\"files\":[\"a\"]}",
    ),
];

// Bytes that are refused, and the member at fault.
const REFUSED: [(Action, State, &str, &str); 50] = [
    (Action::Delta, State::Requested, " ", ""),
    (Action::Delta, State::Requested, "{}", ""),
    (Action::Compaction, State::Inflight, "x", ""),
    (Action::Delta, State::Inflight, "", ""),
    (Action::Delta, State::Inflight, "{", ""),
    (Action::Delta, State::Inflight, "[]", ""),
    (Action::Delta, State::Inflight, "null", ""),
    (Action::Delta, State::Inflight, "{\"groups\":[]} 1", ""),
    (Action::Delta, State::Inflight, "{}", "groups"),
    (Action::Delta, State::Inflight, "{\"groups\":{}}", "groups"),
    (
        Action::Delta,
        State::Inflight,
        "{\"groups\":[null]}",
        "groups",
    ),
    (Action::Delta, State::Inflight, "{\"extra\":1}", "extra"),
    (
        Action::Delta,
        State::Inflight,
        "{\"groups\":[],\"zzz\":1}",
        "zzz",
    ),
    (Action::Delta, State::Inflight, "{\"zzz\":1}", "groups"),
    (Action::Delta, State::Inflight, "{\"\":1,\"groups\":[]}", ""),
    (
        Action::Delta,
        State::Inflight,
        "{\"groups\":[{\"base\":\"20000101000000000\",\"file\":\"00007fff-4f01-52df-a6be-557d177dca72-0\",\"partition\":\"x\",\"writes\":1}]}",
        "groups",
    ),
    (
        Action::Delta,
        State::Inflight,
        "{\"groups\":[{\"base\":\"20000101000000000\",\"file\":\"00007fff-8027-57b9-bb99-03c20c98e48f-0\",\"partition\":\"x\"}]}",
        "groups",
    ),
    (
        Action::Delta,
        State::Inflight,
        "{\"groups\":[{\"base\":\"20000101000000000\",\"file\":\"00007fff-4f01-52df-a6be-557d177dca72-0\",\"partition\":\"y\"}]}",
        "groups",
    ),
    (
        Action::Delta,
        State::Inflight,
        "{\"groups\":[{\"base\":\"20000101000000000\",\"file\":\"00007fff-46ed-5bbf-84e5-46ddeeba4568-0\",\"partition\":\".x\"}]}",
        "groups",
    ),
    (
        Action::Delta,
        State::Inflight,
        "{\"groups\":[{\"base\":\"20000101000000000\",\"file\":\"00007fff-4f01-52df-a6be-557d177dca72-20000101000000000\",\"partition\":\"x\"}]}",
        "groups",
    ),
    (
        Action::Delta,
        State::Inflight,
        "{\"groups\":[{\"base\":\"20000101000000000\",\"file\":\"00007FFF-4f01-52df-a6be-557d177dca72-0\",\"partition\":\"x\"}]}",
        "groups",
    ),
    (
        Action::Delta,
        State::Inflight,
        "{\"groups\":[{\"base\":\"20240230000000000\",\"file\":\"00007fff-4f01-52df-a6be-557d177dca72-0\",\"partition\":\"x\"}]}",
        "groups",
    ),
    (
        Action::Delta,
        State::Inflight,
        "{\"groups\":[{\"base\":\"2024010100000000\",\"file\":\"00007fff-4f01-52df-a6be-557d177dca72-0\",\"partition\":\"x\"}]}",
        "groups",
    ),
    (
        Action::Delta,
        State::Completed,
        "{\"checkpoint\":1}",
        "groups",
    ),
    (
        Action::Delta,
        State::Completed,
        "{\"groups\":[{\"base\":\"20000101000000000\",\"file\":\"00007fff-4f01-52df-a6be-557d177dca72-0\",\"partition\":\"x\",\"writes\":1}]}",
        "checkpoint",
    ),
    (
        Action::Delta,
        State::Completed,
        "{\"checkpoint\":-1,\"groups\":[]}",
        "checkpoint",
    ),
    (
        Action::Delta,
        State::Completed,
        "{\"checkpoint\":1.0,\"groups\":[]}",
        "checkpoint",
    ),
    (
        Action::Delta,
        State::Completed,
        "{\"checkpoint\":1e2,\"groups\":[]}",
        "checkpoint",
    ),
    (
        Action::Delta,
        State::Completed,
        "{\"checkpoint\":-0,\"groups\":[]}",
        "checkpoint",
    ),
    (
        Action::Delta,
        State::Completed,
        "{\"checkpoint\":18446744073709551616,\"groups\":[]}",
        "checkpoint",
    ),
    (
        Action::Delta,
        State::Completed,
        "{\"checkpoint\":\"1\",\"groups\":[]}",
        "checkpoint",
    ),
    (
        Action::Delta,
        State::Completed,
        "{\"checkpoint\":null,\"groups\":[{\"base\":\"20000101000000000\",\"file\":\"00007fff-4f01-52df-a6be-557d177dca72-0\",\"partition\":\"x\"}]}",
        "groups",
    ),
    (
        Action::Delta,
        State::Completed,
        "{\"checkpoint\":null,\"groups\":[{\"base\":\"20000101000000000\",\"file\":\"00007fff-4f01-52df-a6be-557d177dca72-0\",\"partition\":\"x\",\"writes\":4294967296}]}",
        "groups",
    ),
    (
        Action::Compaction,
        State::Requested,
        "{\"groups\":[{\"file\":\"00007fff-4f01-52df-a6be-557d177dca72-0\",\"logs\":[],\"partition\":\"x\"}]}",
        "groups",
    ),
    (
        Action::Compaction,
        State::Requested,
        "{\"groups\":[{\"base\":{\"length\":1},\"file\":\"00007fff-4f01-52df-a6be-557d177dca72-0\",\"logs\":[],\"partition\":\"x\"}]}",
        "groups",
    ),
    (
        Action::Compaction,
        State::Requested,
        "{\"groups\":[{\"base\":null,\"file\":\"00007fff-4f01-52df-a6be-557d177dca72-0\",\"logs\":[{\"length\":1,\"name\":\"a\",\"x\":1}],\"partition\":\"x\"}]}",
        "groups",
    ),
    (
        Action::Compaction,
        State::Completed,
        "{\"bases\":[{\"file\":\"00007fff-4f01-52df-a6be-557d177dca72-0\",\"length\":1,\"name\":\"a\",\"partition\":\"x\",\"rows\":-1}]}",
        "bases",
    ),
    (
        Action::Compaction,
        State::Completed,
        "{\"groups\":[]}",
        "bases",
    ),
    (
        Action::Replace,
        State::Requested,
        "{\"from\":[],\"order\":5,\"to\":[]}",
        "order",
    ),
    (
        Action::Replace,
        State::Requested,
        "{\"from\":[],\"to\":[]}",
        "order",
    ),
    (
        Action::Replace,
        State::Requested,
        "{\"from\":[],\"order\":null,\"to\":[\"00007fff-4f01-52df-a6be-557d177dca72-0\"]}",
        "to",
    ),
    (
        Action::Replace,
        State::Completed,
        "{\"bases\":[],\"replaced\":[{\"file\":\"00007fff-4f01-52df-a6be-557d177dca72-0\",\"partition\":\"y\"}]}",
        "replaced",
    ),
    (
        Action::Clean,
        State::Requested,
        "{\"earliest\":4,\"files\":[1]}",
        "earliest",
    ),
    (
        Action::Clean,
        State::Requested,
        "{\"earliest\":\"20240101000000001\",\"files\":[1]}",
        "files",
    ),
    (
        Action::Clean,
        State::Completed,
        "{\"removed\":4294967296}",
        "removed",
    ),
    (
        Action::Rollback,
        State::Requested,
        "{\"files\":[\"a\"],\"groups\":[],\"kind\":\"deltacommit\",\"target\":\"20240101000000001\"}",
        "files",
    ),
    (
        Action::Rollback,
        State::Requested,
        "{\"files\":[\"a\"],\"groups\":[{\"base\":\"20000101000000000\",\"file\":\"00007fff-4f01-52df-a6be-557d177dca72-0\",\"partition\":\"x\"}],\"kind\":\"replacecommit\",\"target\":\"20240101000000001\"}",
        "groups",
    ),
    (
        Action::Rollback,
        State::Requested,
        "{\"files\":[\"a\"],\"groups\":[{\"base\":\"20000101000000000\",\"file\":\"00007fff-4f01-52df-a6be-557d177dca72-0\",\"partition\":\"x\"}],\"kind\":\"clean\",\"target\":\"20240101000000001\"}",
        "kind",
    ),
    (
        Action::Rollback,
        State::Requested,
        "{\"files\":[],\"groups\":[],\"kind\":\"deltacommit\",\"target\":null}",
        "target",
    ),
    (
        Action::Rollback,
        State::Completed,
        "{\"a\":1,\"target\":\"20240101000000001\"}",
        "a",
    ),
];

fn is_written(alloc: Global, table: &Name, meta: &Meta, want: &str) -> Result<bool, AllocError> {
    match meta_text(alloc, table, meta) {
        Ok(bytes) => Ok(bytes.as_slice() == want.as_bytes()),
        Err(_) => Err(AllocError),
    }
}

// Whether the bytes are read, and written so.
fn is_read(
    alloc: Global,
    action: Action,
    state: State,
    bytes: &[u8],
    want: &str,
) -> Result<bool, AllocError> {
    let table = Name::from_text(alloc, TABLE)?;
    match meta_parse(alloc, &table, action, state, bytes) {
        Ok(meta) => is_written(alloc, &table, &meta, want),
        Err(_) => Ok(false),
    }
}

// Whether the bytes are refused for this member.
fn is_refused(
    alloc: Global,
    action: Action,
    state: State,
    bytes: &[u8],
    want: &str,
) -> Result<bool, AllocError> {
    let table = Name::from_text(alloc, TABLE)?;
    match meta_parse(alloc, &table, action, state, bytes) {
        Err(MetaTextError::BadMeta(field)) => Ok(field.as_str() == want),
        _ => Ok(false),
    }
}

#[test]
fn metadata_is_read_and_written(rt: HostRuntime) -> Result<(), Fail> {
    for (action, state, text) in WRITTEN {
        assert!(rt; is_read(rt.alloc(), action, state, text.as_bytes(), text)?);
    }
    for (action, state, text, want) in READ {
        assert!(rt; is_read(rt.alloc(), action, state, text.as_bytes(), want)?);
    }
    Ok(())
}

#[test]
fn refusals_name_a_member(rt: HostRuntime) -> Result<(), Fail> {
    for (action, state, text, want) in REFUSED {
        assert!(rt; is_refused(rt.alloc(), action, state, text.as_bytes(), want)?);
    }
    assert!(rt;
        is_refused(
            rt.alloc(),
            Action::Clean,
            State::Completed,
            b"{\"removed\":1,\"\xff\":1}",
            ""
        )?
    );
    Ok(())
}
