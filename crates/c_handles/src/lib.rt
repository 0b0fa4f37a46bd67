//! The handles of the calls for C, and the calls on sections, policies, resources, caches and passes behind them.
#![tactic(auto)]

mod asking;
mod field;
mod handle;
mod held;
mod loan;
mod opening;
mod passing;
mod policy;
mod reading;
mod resource;
mod view;

pub use crate::asking::{choose, evaluate, respond, select};
pub use crate::field::written_field;
pub use crate::handle::Handle;
pub use crate::held::{Held, HeldConnection, HeldGate};
pub use crate::loan::Loan;
pub use crate::opening::{
    close, open, open_cache, open_cache_with, open_policy, open_resource, open_section,
};
pub use crate::passing::{
    begin_pass, copy_pass_content, pass_came, pass_ended, pass_failed, pass_received, pass_resume,
    pass_status, pass_validation, remove_stored, write_pass_fields,
};
pub use crate::policy::{CorsExchange, answer_cross_origin};
pub use crate::resource::answer_as_resource;
pub use crate::view::{Lent, View};
