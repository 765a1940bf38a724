// The names of tables and of partitions.
ghost use Rattle.std.specs.Prelude.{◌≡◌, IsTrue, ◌↔◌};
ghost use Rattle.std.specs.List.{list_all};
ghost use Rattle.table_forms.specs.NameForms.{IsTableName, IsPartitionPath, is_table_name_byte, is_partition_byte};

const MAX_TABLE_NAME_BYTES: usize = 64;

const MAX_PARTITION_BYTES: usize = 200;

fn is_table_name_byte(byte: u8) -> bool
    ensures { result ≡ is_table_name_byte byte }
{
    byte.is_ascii_alphanumeric() || byte == b'_' || byte == b'-'
}

fn is_partition_byte(byte: u8) -> bool
    ensures { result ≡ is_partition_byte byte }
{
    is_table_name_byte(byte) || byte == b'=' || byte == b'.'
}

fn has_table_name_bytes(text: &[u8]) -> bool
    ensures { result ≡ list_all is_table_name_byte text.now }
{
    text.iter().all(|byte| is_table_name_byte(*byte))
}

fn has_partition_bytes(text: &[u8]) -> bool
    ensures { result ≡ list_all is_partition_byte text.now }
{
    text.iter().all(|byte| is_partition_byte(*byte))
}

/// Whether the bytes are a table name: 1 to 64 ASCII letters, digits, `_` and `-`. The rule is this project's own.
pub fn is_table_name(text: &[u8]) -> bool
    ensures { IsTrue result ↔ IsTableName text.now }
{
    if text.is_empty() || text.len() > MAX_TABLE_NAME_BYTES {
        return false;
    }
    has_table_name_bytes(text)
}

/// Whether the bytes are a partition path: 1 to 200 ASCII letters, digits, `_`, `=`, `.` and `-`, the first of them
/// no `.`. The rule is this project's own; a `/` is none of them, so a path is one folder.
pub fn is_partition_path(text: &[u8]) -> bool
    ensures { IsTrue result ↔ IsPartitionPath text.now }
{
    if text.is_empty() || text.len() > MAX_PARTITION_BYTES {
        return false;
    }
    if text[0] == b'.' {
        return false;
    }
    has_partition_bytes(text)
}
