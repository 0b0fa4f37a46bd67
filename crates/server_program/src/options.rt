//! The words of the command line.

use clap::{Arg, ArgAction, Command, value_parser};
use std::alloc::{AllocError, Global};

// What an option takes: nothing, a text, a text each time that it is used, or a number of 64 bits. The help
// has the name of the value.
#[derive(Clone, Copy)]
enum Takes {
    Nothing,
    Text(&'static str),
    Texts(&'static str),
    Number(&'static str),
}

// The options, as the help lists them.
const OPTIONS: [(&str, Takes, &str); 10] = [
    (
        "cache-control",
        Takes::Text("VALUE"),
        "Cache-Control of the answers 200, 206 and 304",
    ),
    (
        "cors-origin",
        Takes::Text("ORIGIN"),
        "Let scripts of another origin read the files, or of any, by *",
    ),
    (
        "host",
        Takes::Texts("NAME"),
        "Answer 421 to requests for other hosts; may be repeated",
    ),
    (
        "listing",
        Takes::Nothing,
        "List the names in a folder that has no index.html",
    ),
    ("log", Takes::Nothing, "Log each request on standard error"),
    (
        "max-file",
        Takes::Number("BYTES"),
        "A longer file is answered by 403",
    ),
    (
        "pages",
        Takes::Text("FOLDER"),
        "Send FOLDER/404.html and the like as the page of a status",
    ),
    (
        "precompressed",
        Takes::Nothing,
        "Serve the precompressed copies FILE.br and FILE.gz to clients that accept them",
    ),
    (
        "requests",
        Takes::Number("N"),
        "Close a connection after N requests",
    ),
    (
        "no-dates",
        Takes::Nothing,
        "Leave out Date and Last-Modified",
    ),
];

/// Makes the description of the command line: a folder, and options.
pub fn command<'a>(alloc: Global) -> Result<Command<'a>, AllocError> {
    let folder = Arg::new(alloc, "FOLDER")
        .required(true)
        .action(ArgAction::Set)
        .help("The folder whose files are served");
    let mut command = Command::new(alloc, "server_program").arg(folder)?;
    for (name, takes, help) in OPTIONS {
        command = command.arg(option(alloc, name, takes).help(help))?;
    }
    Ok(command)
}

fn option<'a>(alloc: Global, name: &'static str, takes: Takes) -> Arg<'a> {
    let option = Arg::new(alloc, name).long(name);
    match takes {
        Takes::Nothing => option.action(ArgAction::SetTrue),
        Takes::Text(value) => option.value_name(value),
        Takes::Texts(value) => option.value_name(value).action(ArgAction::Append),
        Takes::Number(value) => option.value_name(value).value_parser(value_parser!(u64)),
    }
}
