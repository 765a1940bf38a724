//! Tests of `avro_schema`, `avro_value` and `table_props`: schemas and their refusals, vectors of the binary form, and texts
//! of properties, as tables.
#![tactic(auto)]

#[cfg(test)]
mod props;
#[cfg(test)]
mod schemas;
#[cfg(test)]
mod values;
