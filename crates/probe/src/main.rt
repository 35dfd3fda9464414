//! What documents mean, asked by a word and printed, for cases and measurements: `probe WORD FILE..`.
#![tactic(auto)]

mod asked;
mod changes;
mod conditions;
mod conflicts;
mod dangling;
mod data;
mod mappings;
mod models;
mod owners;
mod printing;
mod region_counts;
mod views;

use asked::Asked;
use changes::put_saved;
use emc_base::{Bin, Txt};
use emc_files::{DiskFiles, Files, OutSink, Sink};
use json_form::Doc;
use mappings::put_of_documents;
use std::alloc::Global;
use std::env;
use std::env::Args;
use std::process::ExitCode;
use std::rt::HostRuntime;

/// The largest document, in bytes.
const LARGEST_FILE: u64 = 1_073_741_824;

fn main(rt: HostRuntime) -> ExitCode {
    let mut text = String::new(rt.alloc());
    match put_answer(&rt, &mut text) {
        Some(()) => print(&rt, text.as_str()),
        None => ExitCode::FAILURE,
    }
}

// Prints a text.
fn print(rt: &HostRuntime, text: &str) -> ExitCode {
    let mut out = OutSink::new(rt);
    match out.put(text.as_bytes()) {
        Ok(()) => ExitCode::SUCCESS,
        Err(_) => ExitCode::FAILURE,
    }
}

// Puts what the words of this process ask of the files that they name; `None` where nothing is asked or a file can't be read, or memory ran
// out.
fn put_answer(rt: &HostRuntime, text: &mut String) -> Option<()> {
    let mut words = env::args(rt).ok()?;
    words.next()?;
    let asked = Asked::of(words.next()?.as_str())?;
    let contents = contents_of(rt.alloc(), &mut DiskFiles::new(rt), words)?;
    match asked {
        Asked::Saved => put_of_contents(rt.alloc(), text, contents.as_slice()),
        _ => put_of_parsed(rt.alloc(), text, asked, contents.as_slice()),
    }
}

// Puts what saving answers.
fn put_of_contents(alloc: Global, text: &mut String, contents: &[Bin]) -> Option<()> {
    match contents {
        [csdl, ssdl, msl, tables, changes] => {
            put_saved(alloc, text, csdl, ssdl, msl, tables, changes)
        }
        _ => None,
    }
}

// Puts what is asked of the documents that these are.
fn put_of_parsed(alloc: Global, text: &mut String, asked: Asked, contents: &[Bin]) -> Option<()> {
    let documents = documents_in(alloc, contents)?;
    let put = put_of_documents(alloc, text, asked, documents.as_slice());
    drop(documents);
    put
}

// The contents of files.
fn contents_of<F: Files>(alloc: Global, files: &mut F, names: Args) -> Option<Vec<Bin>> {
    let mut contents = Vec::new(alloc);
    for name in names {
        contents.push(content(alloc, files, name)?).ok()?;
    }
    Some(contents)
}

// The content of a file.
fn content<F: Files>(alloc: Global, files: &mut F, name: String) -> Option<Bin> {
    let name = Txt::from_string(name);
    files.read(alloc, &name, LARGEST_FILE).ok()
}

// The documents that these are.
fn documents_in(alloc: Global, contents: &[Bin]) -> Option<Vec<Doc>> {
    let mut documents = Vec::new(alloc);
    for content in contents {
        documents.push(Doc::of_bytes(alloc, content).ok()?).ok()?;
    }
    Some(documents)
}
