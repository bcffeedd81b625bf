//! The URLs of sources: the base that they are resolved against, the URL that a source leads to, and the
//! relative spelling of such a URL. The URL Standard's own rules are those of the crate `url`; what is added
//! here is the prefix before a source, and that a URL is kept only where its text leads to itself again.

mod base;
mod relative;
mod resolve;

pub use base::Base;
pub(crate) use resolve::{SourceFault, prefixed, resolve};
