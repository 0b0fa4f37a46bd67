//! Serves the files of a folder over standard input and output, until the connection is done.
#![tactic(auto)]

mod cors;
mod folder;
mod kept;
mod laws;
mod log;
mod names;
mod options;
mod pages;
mod place;
mod stamp;

use crate::cors::policy_for;
use crate::folder::Folder;
use crate::kept::KeptFiles;
use crate::options::command;
use crate::pages::pages_in;
use clap::ArgMatches;
use decide_cors::CorsPolicy;
use headers::{HeaderValue, Refused};
use http_header::HeaderValueError;
use http_server::Config;
use server_service::{Divider, FileService, Page, Settings, Site, serve_store};
use std::alloc::{AllocError, Global};
use std::env::VarError;
use std::hash::RandomState;
use std::io::ErrorKind;
use std::path::PathBuf;
use std::process::ExitCode;
use std::random::RandomSource;
use std::{env, fs, io};

// The status of a mistake in the words of the command line.
const MISTAKE: u8 = 2;

// Mistakes in the values of options.
const BAD_CACHE_CONTROL: &str = "'--cache-control' has a byte that no field value can have";

const BAD_HOST: &str = "'--host' has a byte that no field value can have";

const BAD_PAGES: &str = "the pages of '--pages' can't be read";

// The path of a folder with every link resolved. `None` if it is no folder.
fn folder_at(rt: &HostRuntime, path: &str) -> Result<Option<PathBuf>, AllocError> {
    match fs::canonicalize(rt, path) {
        Ok(path) => Ok(path.is_dir(rt).then_some(path)),
        Err(error) if error.kind() == ErrorKind::OutOfMemory => Err(AllocError),
        Err(_) => Ok(None),
    }
}

/// Returns the field value of a text, or the mistake if it is none.
pub fn value_of(
    alloc: Global,
    text: &str,
    mistake: &'static str,
) -> Result<HeaderValue, Refused<&'static str>> {
    match HeaderValue::from_str(alloc, text) {
        Ok(value) => Ok(value),
        Err(HeaderValueError::Invalid) => Err(Refused::Invalid(mistake)),
        Err(HeaderValueError::OutOfMemory) => Err(Refused::Memory(AllocError)),
    }
}

// A boundary between parts that nobody can foresee.
fn divider_for(rt: &HostRuntime) -> anyhow::Result<Divider> {
    let mut bytes = [0; 16];
    rt.fill_bytes(&mut bytes)?;
    let text = hex::encode(rt.alloc(), bytes)?;
    Ok(Divider::new(rt.alloc(), text)?)
}

// The value of Cache-Control, if it is asked for. Blanks around a value are no part of it.
fn cache_control_of(
    alloc: Global,
    matches: &ArgMatches<'_>,
) -> Result<Option<HeaderValue>, Refused<&'static str>> {
    match matches.get_str("cache-control") {
        Some(text) => Ok(Some(value_of(alloc, text.trim(), BAD_CACHE_CONTROL)?)),
        None => Ok(None),
    }
}

// The policy for other origins, if it is asked for.
fn cors_of(
    alloc: Global,
    matches: &ArgMatches<'_>,
) -> Result<Option<CorsPolicy>, Refused<&'static str>> {
    match matches.get_str("cors-origin") {
        Some(text) => Ok(Some(policy_for(alloc, text)?)),
        None => Ok(None),
    }
}

// The hosts that are served, or none for any.
fn hosts_of(
    alloc: Global,
    matches: &ArgMatches<'_>,
) -> Result<Vec<HeaderValue>, Refused<&'static str>> {
    let mut hosts = Vec::new(alloc);
    for name in matches.get_strs("host").unwrap_or(&[]) {
        let host = value_of(alloc, name, BAD_HOST)?;
        hosts.push(host)?;
    }
    Ok(hosts)
}

// Whom the log names as the client, if a log is asked for: the address that socat gives, or a hyphen.
fn logged_for(rt: &HostRuntime, matches: &ArgMatches<'_>) -> Result<Option<String>, AllocError> {
    if !matches.get_flag("log") {
        return Ok(None);
    }
    match env::var(rt, "SOCAT_PEERADDR") {
        Ok(client) => Ok(Some(client)),
        Err(VarError::OutOfMemory) => Err(AllocError),
        Err(_) => Ok(Some(String::from_str(rt.alloc(), "-")?)),
    }
}

// The site's own pages, if there are some.
fn pages_of(
    rt: &HostRuntime,
    matches: &ArgMatches<'_>,
) -> Result<Vec<Page>, Refused<&'static str>> {
    let Some(folder) = matches.get_str("pages") else {
        return Ok(Vec::new(rt.alloc()));
    };
    match pages_in(rt, folder) {
        Ok(pages) => Ok(pages),
        Err(error) if error.kind() == ErrorKind::OutOfMemory => Err(Refused::Memory(AllocError)),
        Err(_) => Err(Refused::Invalid(BAD_PAGES)),
    }
}

// How the words of the command line have the files served, or the first mistake in them.
fn settings_of(
    rt: &HostRuntime,
    matches: &ArgMatches<'_>,
    divider: Divider,
) -> Result<Settings, Refused<&'static str>> {
    let cache_control = cache_control_of(rt.alloc(), matches)?;
    let cors = cors_of(rt.alloc(), matches)?;
    let hosts = hosts_of(rt.alloc(), matches)?;
    let pages = pages_of(rt, matches)?;
    Ok(Settings {
        cache_control,
        negotiates: matches.get_flag("precompressed"),
        hosts,
        cors,
        divider,
        pages,
    })
}

// The files of the folder whose resolved path this is.
fn folder_of<'a>(
    rt: &'a HostRuntime,
    matches: &ArgMatches<'_>,
    root: &'a str,
) -> Result<Folder<'a>, AllocError> {
    let kept = KeptFiles::new(rt.alloc())?;
    Ok(Folder {
        rt,
        root,
        max_file: matches.get_one::<u64>("max-file").unwrap_or(u64::MAX),
        has_dates: !matches.get_flag("no-dates"),
        lists: matches.get_flag("listing"),
        logged: logged_for(rt, matches)?,
        kept,
    })
}

// What serves the files of a folder.
fn service_of<'a>(
    alloc: Global,
    store: Folder<'a>,
    site: Site,
    requests: u64,
) -> FileService<Folder<'a>> {
    FileService {
        alloc,
        store,
        site,
        left: requests,
        source: None,
        date: None,
    }
}

// Serves one connection.
fn serve(
    rt: &HostRuntime,
    keys: RandomState,
    service: &mut FileService<Folder<'_>>,
) -> io::Result<()> {
    let (mut reader, mut writer) = (rt.stdin(), rt.stdout());
    serve_store(keys, Config::default(), service, &mut reader, &mut writer)
}

// Serves the files of the folder whose resolved path this is, unless the words have a mistake. The status is
// 1 if reading or writing fails.
fn serve_folder(
    rt: &HostRuntime,
    matches: &ArgMatches<'_>,
    root: &str,
) -> anyhow::Result<ExitCode> {
    let settings = match settings_of(rt, matches, divider_for(rt)?) {
        Ok(settings) => settings,
        Err(Refused::Memory(error)) => return Err(error.into()),
        Err(Refused::Invalid(mistake)) => {
            eprintln!(rt; "error: {mistake}")?;
            return Ok(ExitCode::from(MISTAKE));
        }
    };
    let requests = matches.get_one::<u64>("requests").unwrap_or(u64::MAX);
    let site = Site::new(rt.alloc(), settings)?;
    let keys = RandomState::new(rt)?;
    let store = folder_of(rt, matches, root)?;
    match serve(rt, keys, &mut service_of(rt.alloc(), store, site, requests)) {
        Ok(()) => Ok(ExitCode::SUCCESS),
        Err(_) => Ok(ExitCode::FAILURE),
    }
}

fn run(rt: &HostRuntime, matches: &ArgMatches<'_>) -> anyhow::Result<ExitCode> {
    let name = matches.get_str("FOLDER").unwrap_or("");
    let Some(root) = folder_at(rt, name)? else {
        eprintln!(rt; "error: '{name}' is no folder")?;
        return Ok(ExitCode::from(MISTAKE));
    };
    serve_folder(rt, matches, root.as_str())
}

fn main(rt: HostRuntime) -> anyhow::Result<ExitCode> {
    let alloc = rt.alloc();
    let words: Vec<String> = env::args(&rt)?.collect(alloc)?;
    let matches = match command(alloc)?.try_get_matches_from(words.as_slice()) {
        Ok(matches) => matches,
        Err(error) => {
            error.print(&rt)?;
            return Ok(ExitCode::from(error.exit_code() as u8));
        }
    };
    run(&rt, &matches)
}
