// The entries that properties have to have.
ghost use Rattle.std.specs.Prelude.{◌≡◌, map, option_map};
ghost use Rattle.table_props.specs.PropsTexts.{entries_in};
ghost use Rattle.table_props.specs.LentEntries.{entries_view};

use crate::lines::value_in;
use crate::property_key::PropertyKey;
use table_forms::read_decimal;

// The values of the keys that have to have one, and that of the ordering field's, lent from their lines.
#[derive(Clone, Copy)]
pub(crate) struct Entries<'a> {
    pub(crate) name: &'a [u8],
    pub(crate) key_field: &'a [u8],
    pub(crate) partition_field: &'a [u8],
    pub(crate) ordering_field: Option<&'a [u8]>,
    pub(crate) buckets: u64,
    pub(crate) schema: &'a [u8],
}

// The entries that lines have.
#[tactic(auto, unfolding(crate::specs::PropsTexts::entries_in))]
pub(crate) fn entries_in<'a>(lines: &[&'a [u8]]) -> Option<Entries<'a>>
    ensures { option_map entries_view result ≡ entries_in (map (λ line. line.now) lines.now) }
{
    let name = value_in(PropertyKey::TableName, lines)?;
    let _type = value_in(PropertyKey::TableType, lines)?;
    let _version = value_in(PropertyKey::TableVersion, lines)?;
    let key_field = value_in(PropertyKey::KeyField, lines)?;
    let partition_field = value_in(PropertyKey::PartitionField, lines)?;
    let _layout = value_in(PropertyKey::LayoutVersion, lines)?;
    let buckets = read_decimal(value_in(PropertyKey::Buckets, lines)?)?;
    let schema = value_in(PropertyKey::TableSchema, lines)?;
    Some(Entries {
        name,
        key_field,
        partition_field,
        ordering_field: value_in(PropertyKey::OrderingField, lines),
        buckets,
        schema,
    })
}
