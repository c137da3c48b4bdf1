//! What a policy leaves of a fragment, with how often each name was taken out.

ghost use Rattle.std.specs.Prelude.{◌≡◌, IfOk, string_bytes};
ghost use Rattle.dom_clean.specs.Again.{IsLeftBy};
ghost use Rattle.dom_clean.specs.Laws.{page_around, page_of};
ghost use Rattle.dom_clean.specs.Reports.{IsReport, IsReportOf};
ghost use Rattle.calm_pages.specs.Calm.{IsCalmPage};
ghost use Rattle.dom_markup.specs.Numbered.{document_of};
ghost use Rattle.dom_markup.specs.ValueTrees.{ValueTrees};

use crate::cleaning::{calm_body, calm_page, clean_node, fragment_top, read_fragment};
use crate::counting::{RemovedCounts, count_removed};
use crate::policy::Policy;
use crate::removals::removed_below;
use dom_nodes::node_id::NodeId;
use dom_trees::tree::Tree;
use page_reading::PageFault;
use std::alloc::Global;

/// What is left of a fragment, and how often each name was taken out of it.
#[derive(Drop)]
pub struct CleanReport {
    /// The text of what is left, as `clean` returns it.
    pub text: String,
    /// What was taken out.
    pub removed: RemovedCounts,
}

/// Returns the text that `clean` returns for a fragment, and how often each name was taken out: what
/// is counted is what `removed_from_tree` lists. The fragment is read once. Where in the source
/// something was isn't known: a tree has no places. Fails only if memory is refused or the node ids
/// run out.
///
/// A text that was cleaned by the same policy is returned as it is (clause `again`).
pub fn clean_report(alloc: Global, source: &str, policy: &Policy) -> Result<CleanReport, PageFault>
    ensures report { IfOk result (λ made. IsReport policy.now made) }
    ensures calm { (body : ValueTrees) → IsCalmPage (page_around source.now) (page_of body)
        → IfOk result (λ made. IsReportOf policy.now (document_of (page_of body)) 5 made) }
    ensures again { IsLeftBy policy.now source.now
        → IfOk result (λ made. string_bytes made.text ≡ source.now) }
{
    // Every policy is sound.
    let _ = policy.lists();
    match calm_page(alloc, source)? {
        Some(document) => report_node(&document.tree, calm_body(), policy),
        None => report_fragment(alloc, source, policy),
    }
}

/// Returns the report of a fragment that isn't calm.
fn report_fragment(alloc: Global, source: &str, policy: &Policy) -> Result<CleanReport, PageFault>
    ensures { IfOk result (λ made. IsReport policy.now made) }
{
    let document = read_fragment(alloc, source)?;
    report_node(&document.tree, fragment_top(), policy)
}

/// Returns the report of the children of a node.
fn report_node(tree: &Tree, id: NodeId, policy: &Policy) -> Result<CleanReport, PageFault>
    ensures of { IfOk result (λ made. IsReportOf policy.now tree.now id made) }
    ensures report { IfOk result (λ made. IsReport policy.now made) }
{
    let text = clean_node(tree, id, policy)?;
    let list = removed_below(tree, &id, policy)?;
    let removed = count_removed(tree.allocator(), list.as_slice())?;
    Ok(CleanReport { text, removed })
}
