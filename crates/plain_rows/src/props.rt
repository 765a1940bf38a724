// The properties of the table.
ghost use Rattle.std.specs.Prelude.{◌≡◌, codes, IfOk};
ghost use Rattle.table_props.specs.PropsTexts.{IsTold, told_of};

use std::alloc::{AllocError, Global};
use table_props::{Props, parse_props};

// As they are written. Blocks don't have the schema: it says the fields of a row to those who read the file.
const TEXT: &[u8] = b"hoodie.table.name=r1
hoodie.table.type=MERGE_ON_READ
hoodie.table.version=6
hoodie.table.recordkey.fields=key
hoodie.table.partition.fields=partition
hoodie.table.precombine.field=rank
hoodie.timeline.layout.version=1
profile.buckets=1
profile.schema={\"fields\":[{\"name\":\"partition\",\"type\":\"string\"},{\"name\":\"key\",\"type\":\"string\"},{\"name\":\"rank\",\"type\":\"long\"},{\"name\":\"body\",\"type\":\"string\"}],\"name\":\"r1\",\"type\":\"record\"}
";

/// The properties of the table `r1`, whose partitions begin with one file group. The only error is want of memory.
pub fn properties(alloc: Global) -> Result<Props, AllocError>
    ensures told { IfOk result (λ props. IsTold (told_of props)) }
    ensures name { IfOk result (λ props. props.name ≡ codes "r1") }
    ensures one_group { IfOk result (λ props. props.buckets ≡ 1) }
{
    // That the text says these two is no clause of reading it, so it is looked at.
    match parse_props(alloc, TEXT) {
        Ok(props) if props.name.as_str() == "r1" && props.buckets == 1 => Ok(props),
        _ => Err(AllocError),
    }
}
