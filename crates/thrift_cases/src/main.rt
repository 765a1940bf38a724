//! Bytes of Thrift's compact protocol and of Parquet's structs, as a table of cases.
//!
//! Each line of the standard input is a case: a word and bytes in hex. The program prints what is read from the bytes, or
//! which item can't be read. `skip` is followed by the number of a type and passes over a value of it; `header` and
//! `footer` read a page's header, printed with its written form, and a footer. `written` prints the written form of a footer.
#![tactic(auto)]

mod sample;

use anyhow::{Result, bail};
use hudi_base::Bytes;
use parquet_meta::{
    Element, FileMeta, MetaError, PageHeader, RowGroup, read_meta, read_page_header, write_meta,
    write_page_header,
};
use std::alloc::Global;
use std::io::{BufRead, BufReader};
use thrift_compact::{TReader, ThriftError};

fn main(rt: HostRuntime) -> Result<()> {
    for line in BufReader::new(rt.alloc(), rt.reader())?.lines(rt.alloc()) {
        let line = line?;
        let answer = answer(rt.alloc(), line.as_str())?;
        println!(rt; "{answer}")?;
    }
    Ok(())
}

// What is printed for a case.
fn answer(alloc: Global, line: &str) -> Result<String> {
    let mut words = line.split_whitespace();
    let name = words.next().unwrap_or("");
    match name {
        "skip" => {
            let kind = words.next().unwrap_or("").parse::<u8>()?;
            let bytes = bytes_of(alloc, words.next().unwrap_or(""))?;
            skip(alloc, kind, bytes.as_slice())
        }
        "header" => header(
            alloc,
            bytes_of(alloc, words.next().unwrap_or(""))?.as_slice(),
        ),
        "footer" => footer(
            alloc,
            bytes_of(alloc, words.next().unwrap_or(""))?.as_slice(),
        ),
        "written" => written(alloc),
        _ => bail!("no case"),
    }
}

fn bytes_of(alloc: Global, digits: &str) -> Result<Bytes> {
    let decoded: Vec<u8> = hex::decode(alloc, digits)?;
    Ok(Bytes::from_vec(decoded))
}

fn skip(alloc: Global, kind: u8, bytes: &[u8]) -> Result<String> {
    let mut reader = TReader::new(bytes);
    match reader.skip(kind) {
        Ok(()) => {
            let offset = reader.offset();
            Ok(format!(in alloc; "{offset} bytes")?)
        }
        Err(ThriftError::Short(offset)) => Ok(format!(in alloc; "short at {offset}")?),
        Err(ThriftError::BadThrift(offset)) => Ok(format!(in alloc; "bad at {offset}")?),
    }
}

fn refusal(alloc: Global, error: MetaError) -> Result<String> {
    match error {
        MetaError::Memory => Ok(format!(in alloc; "out of memory")?),
        MetaError::BadMeta(offset) => Ok(format!(in alloc; "bad at {offset}")?),
        MetaError::Unsupported(index) => Ok(format!(in alloc; "unsupported {index}")?),
    }
}

fn header(alloc: Global, bytes: &[u8]) -> Result<String> {
    match read_page_header(alloc, bytes) {
        Ok((header, len)) => {
            let written = written_header(alloc, &header)?;
            Ok(format!(in alloc; "{header:?}, {len} bytes, written {written}")?)
        }
        Err(error) => refusal(alloc, error),
    }
}

fn written_header(alloc: Global, header: &PageHeader) -> Result<String> {
    match write_page_header(alloc, header) {
        Ok(bytes) => Ok(hex::encode(alloc, bytes.as_slice())?),
        Err(error) => refusal(alloc, error),
    }
}

fn footer(alloc: Global, bytes: &[u8]) -> Result<String> {
    match read_meta(alloc, bytes) {
        Ok(meta) => footer_text(alloc, &meta),
        Err(error) => refusal(alloc, error),
    }
}

fn footer_text(alloc: Global, meta: &FileMeta) -> Result<String> {
    let mut text = format!(in alloc; "version {}, {} rows", meta.version, meta.num_rows)?;
    for element in meta.schema.as_slice() {
        push_element(&mut text, alloc, element)?;
    }
    for group in meta.groups.as_slice() {
        push_group(&mut text, alloc, group)?;
    }
    Ok(text)
}

fn push_element(text: &mut String, alloc: Global, element: &Element) -> Result<()> {
    let name: String = hex::encode(alloc, element.name.as_slice())?;
    let physical = element.physical.unwrap_or(-1);
    let repetition = element.repetition.unwrap_or(-1);
    let children = element.children.unwrap_or(-1);
    let told = format!(in alloc; "; element {name} {physical} {repetition} {children}")?;
    text.push_str(told.as_str())?;
    Ok(())
}

fn push_group(text: &mut String, alloc: Global, group: &RowGroup) -> Result<()> {
    let rows = group.num_rows;
    let size = group.total_size;
    let count = group.columns.len();
    let told = format!(in alloc; "; group {rows} {size} {count}")?;
    text.push_str(told.as_str())?;
    Ok(())
}

// The written form of the footer of `sample`.
fn written(alloc: Global) -> Result<String> {
    match write_meta(alloc, &sample::sample(alloc)?) {
        Ok(bytes) => Ok(hex::encode(alloc, bytes.as_slice())?),
        Err(error) => refusal(alloc, error),
    }
}
