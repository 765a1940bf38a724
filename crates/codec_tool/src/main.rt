//! `codec_tool FORMAT COMMAND`: reads a format on the standard input and writes it on the standard output, so that
//! other programs can be tried beside these crates.
//!
//! A format has a file of its own, and each of its commands is a function there. Nothing is claimed here: the contracts
//! stand in the crates of the formats.
#![tactic(auto)]

mod avro;
mod avro_json;
mod base;
mod blocks;
mod contents;
mod folds;
mod json_avro;
mod plain;

use anyhow::{Result, bail};
use hudi_base::Bytes;
use std::alloc::Global;
use std::env;
use std::io::{self, Read, Write};

fn main(rt: HostRuntime) -> Result<()> {
    let words: Vec<String> = env::args(&rt)?.skip(1).collect(rt.alloc())?;
    let mut input = Vec::new(rt.alloc());
    rt.reader().read_to_end(&mut input)?;
    let output = output_of(rt.alloc(), words.as_slice(), input.as_slice())?;
    io::writer(&rt).write_all(output.as_slice())?;
    Ok(())
}

// What a command makes of the input.
fn output_of(alloc: Global, words: &[String], input: &[u8]) -> Result<Bytes> {
    match words {
        [format, command] if format.as_str() == "avro" => {
            avro::output_of(alloc, command.as_str(), input)
        }
        [format, command] if format.as_str() == "base" => {
            base::output_of(alloc, command.as_str(), input)
        }
        [format, command] if format.as_str() == "contents" => {
            contents::output_of(alloc, command.as_str(), input)
        }
        [format, command] if format.as_str() == "plain" => {
            plain::output_of(alloc, command.as_str(), input)
        }
        _ => bail!(
            "usage: codec_tool avro copy|decode|encode, base write|read, contents fold|show|write, or plain fold"
        ),
    }
}
