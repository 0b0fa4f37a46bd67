//! What a view lends, by what it is.
ghost use Rattle.std.specs.Prelude.{◌≡◌, option_map};
ghost use Rattle.c_handles.specs.Handles.{connection_in, files_in, pass_in, policy_in, resource_in, section_in};

use crate::held::{Held, HeldConnection};
use crate::view::Lent;
use c_files::HeldFiles;
use c_pass::Stepped;
use decide_cors::CorsPolicy;
use decide_resource::Resource;
use headers::HeaderMap;

impl Lent {
    /// The fields of the section that it has, if it has one.
    pub fn section(&self) -> Option<&HeaderMap>
        ensures { option_map (λ fields. fields.now) result ≡ section_in self.now.loan.held }
    {
        match self.get() {
            Some(Held::Section(fields)) => Some(fields),
            _ => None,
        }
    }

    /// The policy that it has, if it has one.
    pub fn policy(&self) -> Option<&CorsPolicy>
        ensures { option_map (λ policy. policy.now) result ≡ policy_in self.now.loan.held }
    {
        match self.get() {
            Some(Held::Policy(policy)) => Some(policy),
            _ => None,
        }
    }

    /// The resource that it has, if it has one.
    pub fn resource(&self) -> Option<&Resource>
        ensures { option_map (λ resource. resource.now) result ≡ resource_in self.now.loan.held }
    {
        match self.get() {
            Some(Held::Resource(resource)) => Some(resource),
            _ => None,
        }
    }

    /// The pass that it has, if it has one.
    pub fn pass(&self) -> Option<&Stepped>
        ensures { option_map (λ pass. pass.now) result ≡ pass_in self.now.loan.held }
    {
        match self.get() {
            Some(Held::Pass(pass)) => Some(pass),
            _ => None,
        }
    }

    /// The connection that it has, if it has one.
    pub fn connection(&self) -> Option<&HeldConnection>
        ensures { option_map (λ held. held.now) result ≡ connection_in self.now.loan.held }
    {
        match self.get() {
            Some(Held::Connection(held)) => Some(held),
            _ => None,
        }
    }

    /// The service of files that it has, if it has one.
    pub fn files(&self) -> Option<&HeldFiles>
        ensures { option_map (λ files. files.now) result ≡ files_in self.now.loan.held }
    {
        match self.get() {
            Some(Held::Files(files)) => Some(files),
            _ => None,
        }
    }
}
