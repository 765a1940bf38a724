// The codec as the jobs of a table see it.
use crate::flat_codec::FlatCodec;
use hudi_base::{Bytes, InstantTime, Name, Value};
use payload_merge::{Row, RowError};
use std::alloc::Global;
use table_jobs::TableCodec;

impl TableCodec for FlatCodec {
    ghost use Rattle.std.specs.Prelude.{is_some};
    ghost use Rattle.avro_schema.specs.Fits.{Fits};
    ghost use Rattle.avro_schema.specs.SchemaTexts.{type_text};
    ghost use Rattle.row_records.specs.Records.{record_type};
    ghost use Rattle.row_values.specs.Layouts.{own_type};
    ghost use Rattle.row_codec.specs.Codec.{IsOfTable};
    ghost use Rattle.row_codec.specs.NewRows.{row_in};
    ghost use Rattle.row_codec.specs.NewRowLaws.{made_own};

    ghost is_of = { λ codec. IsOfTable codec.records.own };

    ghost table_name = { λ codec. codec.records.own.table };

    ghost schema = { λ codec. type_text (record_type codec.records.own) };

    ghost fits = { λ codec. Fits (own_type codec.records.own) };

    ghost row_made = { λ codec. row_in codec.records.own };

    ghost is_ordered = { λ codec. is_some codec.records.own.ordering };

    fn table(&self) -> &Name {
        &self.records.own.table
    }

    fn schema_text(&self) -> &Bytes {
        &self.text
    }

    fn new_row(&self, alloc: Global, value: &Value) -> Result<Row, RowError> {
        self.row_of(alloc, value, InstantTime::FIRST, 0)
    }

    fn is_ordered(&self) -> bool {
        self.ordering().is_some()
    }

    ghost new_rows_are_own = { λ codec. made_own codec.records.own };

    ghost name_is_told = { λ codec props is. is.table };
}
