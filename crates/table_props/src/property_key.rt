// The keys of properties, and what values they may have.
ghost use Rattle.std.specs.Prelude.{◌≡◌, IfOk, is_ok};
ghost use Rattle.table_props.specs.Keys.{key_text, key_of, is_allowed, is_table_name, is_some_bucket_count};
ghost use Rattle.table_forms.specs.Decimals.{decimal_of};
ghost use Rattle.avro_schema.specs.SchemaTexts.{type_named};

use avro_schema::{SchemaError, parse_schema};
use std::alloc::{AllocError, Global};
use table_forms::{is_table_name, read_decimal};

// The greatest number of file groups that a new partition begins with.
const MAX_BUCKETS: u64 = 1024;

// The one type, the one version of tables and the one version of timelines.
pub(crate) const TABLE_TYPE: &[u8] = b"MERGE_ON_READ";

pub(crate) const TABLE_VERSION: &[u8] = b"6";

pub(crate) const LAYOUT_VERSION: &[u8] = b"1";

// A listed key.
#[derive(Clone, Copy)]
pub(crate) enum PropertyKey {
    TableName,
    TableType,
    TableVersion,
    KeyField,
    PartitionField,
    OrderingField,
    LayoutVersion,
    Buckets,
    TableSchema,
}

impl PropertyKey {
    pub(crate) fn text(self) -> &'static [u8]
        ensures { result.now ≡ key_text self }
    {
        match self {
            PropertyKey::TableName => b"hoodie.table.name",
            PropertyKey::TableType => b"hoodie.table.type",
            PropertyKey::TableVersion => b"hoodie.table.version",
            PropertyKey::KeyField => b"hoodie.table.recordkey.fields",
            PropertyKey::PartitionField => b"hoodie.table.partition.fields",
            PropertyKey::OrderingField => b"hoodie.table.precombine.field",
            PropertyKey::LayoutVersion => b"hoodie.timeline.layout.version",
            PropertyKey::Buckets => b"profile.buckets",
            PropertyKey::TableSchema => b"profile.schema",
        }
    }

    // The key with this text.
    #[tactic(auto, unfolding(crate::specs::Keys::key_of))]
    pub(crate) fn of(text: &[u8]) -> Option<PropertyKey>
        ensures { result ≡ key_of text.now }
    {
        if text == PropertyKey::TableName.text() {
            Some(PropertyKey::TableName)
        } else if text == PropertyKey::TableType.text() {
            Some(PropertyKey::TableType)
        } else if text == PropertyKey::TableVersion.text() {
            Some(PropertyKey::TableVersion)
        } else if text == PropertyKey::KeyField.text() {
            Some(PropertyKey::KeyField)
        } else if text == PropertyKey::PartitionField.text() {
            Some(PropertyKey::PartitionField)
        } else if text == PropertyKey::OrderingField.text() {
            Some(PropertyKey::OrderingField)
        } else if text == PropertyKey::LayoutVersion.text() {
            Some(PropertyKey::LayoutVersion)
        } else if text == PropertyKey::Buckets.text() {
            Some(PropertyKey::Buckets)
        } else if text == PropertyKey::TableSchema.text() {
            Some(PropertyKey::TableSchema)
        } else {
            None
        }
    }

    // Whether the key may have this value, whatever other lines say.
    #[tactic(auto, unfolding(crate::specs::Keys::is_allowed))]
    pub(crate) fn allows(self, alloc: Global, value: &[u8]) -> Result<bool, AllocError>
        ensures { IfOk result (λ answer. answer ≡ is_allowed self value.now) }
    {
        match self {
            PropertyKey::TableName => Ok(names_table(value)),
            PropertyKey::TableType => Ok(value == TABLE_TYPE),
            PropertyKey::TableVersion => Ok(value == TABLE_VERSION),
            PropertyKey::LayoutVersion => Ok(value == LAYOUT_VERSION),
            PropertyKey::Buckets => Ok(counts_buckets(value)),
            PropertyKey::TableSchema => names_schema(alloc, value),
            PropertyKey::KeyField | PropertyKey::PartitionField | PropertyKey::OrderingField => {
                Ok(true)
            }
        }
    }
}

fn names_table(value: &[u8]) -> bool
    ensures { result ≡ is_table_name value.now }
{
    is_table_name(value)
}

fn counts_buckets(value: &[u8]) -> bool
    ensures { result ≡ is_some_bucket_count (decimal_of value.now) }
{
    match read_decimal(value) {
        Some(count) => 1 <= count && count <= MAX_BUCKETS,
        None => false,
    }
}

fn names_schema(alloc: Global, value: &[u8]) -> Result<bool, AllocError>
    ensures { IfOk result (λ answer. answer ≡ is_ok (type_named value.now)) }
{
    match parse_schema(alloc, value) {
        Ok(_) => Ok(true),
        Err(SchemaError::Memory) => Err(AllocError),
        Err(_) => Ok(false),
    }
}
