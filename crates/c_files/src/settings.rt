//! How a service is made.
ghost use Rattle.std.specs.Prelude.{IfOk};
ghost use Rattle.c_files.specs.Opening.{IsDividerOf, IsNew, IsSettingsOf};

use crate::held::HeldFiles;
use crate::known::KnownFiles;
use crate::store::Found;
use c_decisions::{optional_value, values_of};
use c_parts::{Failure, HashKeys};
use headers::Refused;
use server_service::{Divider, FileService, Settings, Site};
use std::alloc::{AllocError, Global};

/// What a service of files does, as C passes it in.
#[repr(C)]
#[derive(Clone, Copy)]
pub struct FilesOptions<'a> {
    /// What Cache-Control says of what a cache may use again, or empty.
    pub cache_control: &'a [u8],
    /// The hosts that are served, one a line, or empty for all.
    pub hosts: &'a [u8],
    /// The boundary between several parts of a response.
    pub boundary: &'a [u8],
    /// Whether a client may get the precompressed copy of a file.
    pub negotiates: bool,
}

// The boundary of these bytes.
fn divider_of(alloc: Global, text: &[u8]) -> Result<Divider, Failure>
    ensures { IsDividerOf text.now result }
{
    let Ok(text) = str::from_utf8(text) else {
        return Err(Failure::Refused);
    };
    let text = String::from_str(alloc, text)?;
    match Divider::new(alloc, text) {
        Ok(divider) => Ok(divider),
        Err(Refused::Invalid(_)) => Err(Failure::Refused),
        Err(Refused::Memory(_)) => Err(Failure::Memory),
    }
}

/// The settings that a caller hands in. Rejected if one of them is none.
pub fn settings_of(alloc: Global, options: &FilesOptions<'_>) -> Result<Settings, Failure>
    ensures { IsSettingsOf options.now result }
{
    let cache_control = optional_value(alloc, options.cache_control)?;
    let hosts = values_of(alloc, options.hosts)?;
    let divider = divider_of(alloc, options.boundary)?;
    Ok(Settings {
        cache_control,
        negotiates: options.negotiates,
        hosts,
        cors: None,
        divider,
        pages: Vec::new(alloc),
    })
}

/// A service with these settings, whose tags are hashed with these keys. Fails only if an allocation fails.
pub fn new_files(
    alloc: Global,
    settings: Settings,
    keys: &HashKeys,
) -> Result<HeldFiles, AllocError>
    ensures { IfOk result (IsNew settings keys.now) }
{
    let site = Site::new(alloc, settings)?;
    Ok(HeldFiles {
        service: FileService {
            alloc,
            store: Found {
                keys: *keys,
                time: 0,
                named: None,
                entries: Vec::new(alloc),
                known: KnownFiles::new(alloc)?,
            },
            site,
            left: 0,
            source: None,
            date: None,
        },
    })
}
