//! Names for writing Markdown, as the crate dom_query groups them.

pub use dom_md::html_escape;
pub use dom_md::serializer::{MDSerializer, serialize_md};
