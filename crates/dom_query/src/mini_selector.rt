//! Mini selectors: selectors of a single step, and paths of such steps.

pub use dom_mini::mini_selector::extension::MiniSelect;
pub use dom_selectors::mini_selector::fault::MiniFault;
pub use dom_selectors::mini_selector::parser::{parse_mini_selector, parse_selector_list};
pub use dom_selectors::mini_selector::selector::{MiniAttr, MiniSelector};
