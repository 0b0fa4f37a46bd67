//! What an open handle of a service has.

use crate::store::Found;
use server_service::FileService;

/// A service of files that the host opens.
#[derive(Drop)]
pub struct HeldFiles {
    /// The service.
    pub service: FileService<Found>,
}
