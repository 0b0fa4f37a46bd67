//! What all resources of a store have in common.
ghost use Rattle.std.specs.Prelude.{◌≡◌, IfOk};
ghost use Rattle.server_service.specs.SiteSettings.{IsSiteOf, hosts_listed};

use crate::settings::{Divider, Settings, Site};
use decide_resource::{MethodRule, Negotiation, Resource, State};
use headers::{HeaderMap, HeaderValue};
use http::Method;
use std::alloc::{AllocError, Global};

// The hosts of a resource, or none for any.
fn hosts_listed(hosts: Vec<HeaderValue>) -> Option<Vec<HeaderValue>>
    ensures { result ≡ hosts_listed hosts }
{
    if hosts.is_empty() { None } else { Some(hosts) }
}

impl Site {
    /// What these settings say of all resources. Fails only if an allocation fails.
    pub fn new(alloc: Global, settings: Settings) -> Result<Site, AllocError>
        ensures { IfOk result (IsSiteOf settings) }
    {
        let Settings {
            cache_control,
            negotiates,
            hosts,
            cors,
            divider,
            pages,
        } = settings;
        let Divider { text, boundary } = divider;
        let get = MethodRule {
            method: Method::GET,
            takes: HeaderMap::new(alloc),
            creates: false,
            needs_condition: false,
            takes_parts: false,
        };
        let rules = vec![in alloc; get]?;
        Ok(Site {
            cache_control,
            divider: text,
            pages,
            resource: Resource {
                hosts: hosts_listed(hosts),
                implemented: Vec::new(alloc),
                rules,
                state: State::Absent,
                representations: Vec::new(alloc),
                negotiation: Negotiation {
                    media_type: false,
                    language: false,
                    coding: negotiates,
                    is_strict: false,
                },
                boundary,
                has_strong_dates: false,
                needs_length: false,
                limit: None,
                cors,
            },
        })
    }
}
